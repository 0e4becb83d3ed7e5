// A host of the engine, by the C calls: what it keeps, and what is answered to it.
use crate::answers::Answers;
use crate::opening::Opening;
use crate::submission::Submission;
use crate::{opening, submission};
use engine_cases::faults::{Fault, Spoiled, part};
use engine_words::snapshots::SNAPSHOT_WORDS;
use engine_words::states::STATE_WORDS;
use kistovab::calls::{kistovab_open, kistovab_submit};
use kistovab::sizes::{
    kistovab_coarse_energy_length, kistovab_coarse_length, kistovab_fine_energy_length,
    kistovab_fine_length, kistovab_work32_length, kistovab_work64_length,
};
use matcher_spec::lent::Index;
use replays::digest::{digest_of_index, with_all};

// The thresholds of energy are as a unit starts with them.
const ACTIVE: f64 = -70.0;

const AVERAGE: f64 = -62.0;

// The index of the longest reference that is opened.
const FINE: usize = opening::VALUES;

const COARSE: usize = opening::BANDS * (opening::FRAMES / 4);

const FINE_ENERGY: usize = opening::BANDS * (opening::FRAMES + 1);

const COARSE_ENERGY: usize = opening::BANDS * (opening::FRAMES / 4 + 1);

// What a submission works in.
const WORK32: usize = 2 * submission::VALUES;

const WORK64: usize = 3 * submission::BANDS * (submission::FRAMES + 1) + opening::FRAMES;

// The buffers of an index.
#[derive(Drop)]
struct Buffers {
    fine: [f32; FINE],
    coarse: [f32; COARSE],
    fine_energy: [f64; FINE_ENERGY],
    coarse_energy: [f64; COARSE_ENERGY],
}

impl Buffers {
    // As much of each as is lent with a window.
    fn lent(&self, o: Opening, spoiled: Spoiled) -> Index<'_> {
        Index {
            fine: spoiled.lent_of(
                &self.fine,
                Fault::ShortFine,
                kistovab_fine_length(o.frames, o.bands),
            ),
            coarse: spoiled.lent_of(
                &self.coarse,
                Fault::ShortCoarse,
                kistovab_coarse_length(o.frames, o.bands),
            ),
            fine_energy: spoiled.lent_of(
                &self.fine_energy,
                Fault::ShortFineEnergy,
                kistovab_fine_energy_length(o.frames, o.bands),
            ),
            coarse_energy: spoiled.lent_of(
                &self.coarse_energy,
                Fault::ShortCoarseEnergy,
                kistovab_coarse_energy_length(o.frames, o.bands),
            ),
        }
    }

    // All of each.
    fn whole(&self) -> Index<'_> {
        Index {
            fine: &self.fine,
            coarse: &self.coarse,
            fine_energy: &self.fine_energy,
            coarse_energy: &self.coarse_energy,
        }
    }
}

// What a host keeps: an engine's state as words, and the index.
#[derive(Drop)]
pub struct Host {
    state: [u64; STATE_WORDS],
    index: Buffers,
}

impl Host {
    pub fn new() -> Host {
        Host {
            state: [0; STATE_WORDS],
            index: Buffers {
                fine: [0.0; FINE],
                coarse: [0.0; COARSE],
                fine_energy: [0.0; FINE_ENERGY],
                coarse_energy: [0.0; COARSE_ENERGY],
            },
        }
    }

    // Opens an engine. All of the index is shown.
    pub fn open(&mut self, o: Opening) -> Answers {
        let reference = o.reference();
        let size = kistovab_fine_length(o.frames, o.bands);
        let size = o.spoiled.lent(Fault::FewValues, size, size);
        let answer = kistovab_open(
            o.readiness,
            o.tracking,
            ACTIVE,
            AVERAGE,
            o.fraction,
            o.hop,
            o.spoiled.said_bands(o.bands),
            part(&reference.times, o.frames),
            part(&reference.values, size),
            &mut self.index.fine,
            &mut self.index.coarse,
            &mut self.index.fine_energy,
            &mut self.index.coarse_energy,
            &mut self.state,
        );
        Answers {
            answer: answer as u64,
            state: with_all(0, &self.state),
            shown: digest_of_index(&self.index.whole()),
        }
    }

    // Submits a window, with as much of the index as is lent, and with working buffers as long as
    // they need be or one shorter. The snapshot is shown.
    pub fn submit(&mut self, o: Opening, s: Submission) -> Answers {
        let made = s.made(o);
        let window = made.lent(o, s);
        let index = self.index.lent(o, s.spoiled);
        let narrow = kistovab_work32_length(s.frames, s.bands(o));
        let wide = kistovab_work64_length(s.frames, s.bands(o), o.frames);
        let n = s.lent(Fault::ShortWork32, narrow).min(WORK32);
        let w = s.lent(Fault::ShortWork64, wide).min(WORK64);
        let mut work32 = [0.0f32; WORK32];
        let mut work64 = [0.0f64; WORK64];
        let mut snapshot = [0u64; SNAPSHOT_WORDS];
        let answer = kistovab_submit(
            &mut self.state,
            index.fine,
            index.coarse,
            index.fine_energy,
            index.coarse_energy,
            window.bands,
            window.times,
            window.energies,
            window.values,
            s.clock,
            &mut work32[..n],
            &mut work64[..w],
            &mut snapshot,
        );
        Answers {
            answer: answer as u64,
            state: with_all(0, &self.state),
            shown: with_all(0, &snapshot),
        }
    }
}
