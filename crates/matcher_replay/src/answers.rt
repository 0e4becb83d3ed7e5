// What the matcher answers to a case, and whether a line says so.
ghost use Rattle.std.specs.Prelude.{◌≡◌};
ghost use Rattle.matcher_replay.specs.Agreement.{answers_of, heard_in, says_of};
ghost use Rattle.matcher_replay.specs.Cases.{FitsArrays};

use crate::case::{CASE_BANDS, CASE_FRAMES, CASE_WINDOW, LINE};
use crate::digest;
use crate::small::{BEGIN, SmallCase};
use hexadecimal::word_at;
use matcher::index::fill_index;
use matcher::lent::lent_matcher;
use matcher::local::local_search;
use matcher::whole::whole_search;
use matcher_spec::lent::{Features, Index};
use replays::digest::digest_of_index;
use replays::sound::fill_times;

// What a case needs of a reference, its index, a window, and of buffers to work in.
const FINE: usize = CASE_BANDS * CASE_FRAMES;

const COARSE: usize = CASE_BANDS * (CASE_FRAMES / 4);

const FINE_ENERGY: usize = CASE_BANDS * (CASE_FRAMES + 1);

const COARSE_ENERGY: usize = CASE_BANDS * (CASE_FRAMES / 4 + 1);

const WINDOW: usize = CASE_BANDS * CASE_WINDOW;

const WORK32: usize = 2 * WINDOW;

const WORK64: usize = 3 * (CASE_BANDS * (CASE_WINDOW + 1)) + CASE_FRAMES;

// What is answered: 1 where the index was filled, a digest of it, and of each search the number of
// candidates and their digest.
#[derive(Default, Drop)]
pub struct Answers {
    pub filled: u64,
    pub index: u64,
    pub whole_count: u64,
    pub whole: u64,
    pub local_count: u64,
    pub local: u64,
}

// Whether the line says these answers.
#[tactic(auto, unfolding(crate::specs::Agreement::says_of))]
pub fn says(line: &[u8; LINE], found: Answers) -> bool
    ensures { result ≡ says_of line.now found }
{
    found.filled == word_at(line, 8)
        && found.index == word_at(line, 9)
        && found.whole_count == word_at(line, 10)
        && found.whole == word_at(line, 11)
        && found.local_count == word_at(line, 12)
        && found.local == word_at(line, 13)
}

// What the matcher answers. The reference's sound is made for all of an array, and its front lent.
pub fn answers_to(small: SmallCase) -> Answers
    ensures { result ≡ answers_of small.case }
{
    let case = small.case;
    let mut times = [0.0f64; CASE_FRAMES];
    let mut values = [0.0f32; FINE];
    let mut fine = [0.0f32; FINE];
    let mut coarse = [0.0f32; COARSE];
    let mut fine_energy = [0.0f64; FINE_ENERGY];
    let mut coarse_energy = [0.0f64; COARSE_ENERGY];
    fill_times(&mut times, 0.0, case.hop);
    small.fill_reference(&mut values);
    let reference = Features {
        bands: case.bands,
        times: &times[..case.frames],
        values: &values[..case.bands * case.frames],
    };
    if !fill_index(
        &mut fine,
        &mut coarse,
        &mut fine_energy,
        &mut coarse_energy,
        case.hop,
        &reference,
    ) {
        return Answers::default();
    }
    let index = Index {
        fine: &fine,
        coarse: &coarse,
        fine_energy: &fine_energy,
        coarse_energy: &coarse_energy,
    };
    search_in(small, &index)
}

// The window's searches of an index. Its sound, too, is made for all of an array.
fn search_in(small: SmallCase, index: &Index<'_>) -> Answers
    requires { FitsArrays index.now }
    ensures { result ≡ heard_in small.case index.now }
{
    let case = small.case;
    let mut times = [0.0f64; CASE_WINDOW];
    let mut values = [0.0f32; WINDOW];
    let mut work32 = [0.0f32; WORK32];
    let mut work64 = [0.0f64; WORK64];
    fill_times(&mut times, BEGIN, case.hop);
    small.fill_window(&mut values);
    let window = Features {
        bands: case.bands,
        times: &times[..case.window],
        values: &values[..case.bands * case.window],
    };
    let matcher = lent_matcher(small.reference(), index);
    let whole = whole_search(&matcher, &window, &mut work32, &mut work64);
    let offset = small.offset();
    let local = local_search(
        &matcher.fine,
        &window,
        offset - case.reach,
        offset + case.reach,
        &mut work32,
        &mut work64,
    );
    Answers {
        filled: 1,
        index: digest_of_index(index),
        whole_count: whole.len() as u64,
        whole: digest::of_candidates(&whole),
        local_count: local.len() as u64,
        local: digest::of_candidates(&local),
    }
}
