// What opening and submission are lent, as structs of slices.
pub use engine_spec::lent::Window;
pub use matcher_spec::lent::{Features, Index};
