// Why a load is not filled.
#[derive(Clone, Copy, Debug, PartialEq, Eq)]
pub enum LoadRefusal {
    SeedZero,
    HopOutOfRange,
    TooLarge,
    Miscounted,
}
