// What a line says is wrong with what is handed in.
use matcher_spec::limits::BANDS_MOST;

#[derive(Clone, Copy, PartialEq, Eq)]
pub enum Fault {
    // An index buffer comes one short with a window.
    ShortFine,
    ShortCoarse,
    ShortFineEnergy,
    ShortCoarseEnergy,

    // A working buffer is lent one short.
    ShortWork32,
    ShortWork64,

    // One too few.
    FewEnergies,
    FewValues,

    // 65 are said, or none.
    ManyBands,
    NoBands,

    // A value is -1.
    NegativeValue,

    // A time is late by 0.3 hops.
    LateTime,

    // The window has a band more than the reference.
    WideWindow,
}

impl Fault {
    // By its number on a line; any other says that nothing is wrong.
    // Kept: a match, since the numbers are the list's and not a place in the declaration.
    pub fn numbered(number: u64) -> Option<Fault> {
        match number {
            1 => Some(Fault::ShortFine),
            2 => Some(Fault::ShortCoarse),
            3 => Some(Fault::ShortFineEnergy),
            4 => Some(Fault::ShortCoarseEnergy),
            5 => Some(Fault::ShortWork32),
            6 => Some(Fault::ShortWork64),
            7 => Some(Fault::FewEnergies),
            8 => Some(Fault::FewValues),
            9 => Some(Fault::ManyBands),
            10 => Some(Fault::NoBands),
            11 => Some(Fault::NegativeValue),
            12 => Some(Fault::LateTime),
            13 => Some(Fault::WideWindow),
            _ => None,
        }
    }
}

// What is wrong with what is handed in, if anything is, and at which value or time.
#[derive(Clone, Copy)]
pub struct Spoiled {
    pub fault: Option<Fault>,
    pub at: usize,
}

impl Spoiled {
    // How much is lent of a buffer of `length` that has to hold `needed`.
    pub fn lent(self, short: Fault, needed: usize, length: usize) -> usize {
        if self.fault == Some(short) {
            needed.saturating_sub(1)
        } else {
            length
        }
    }

    // How much of an index buffer is lent that has to hold `needed`.
    pub fn lent_of<T>(self, list: &[T], short: Fault, needed: usize) -> &[T] {
        part(list, self.lent(short, needed, list.len()))
    }

    // The bands that there are.
    pub fn made_bands(self, bands: usize) -> usize {
        match self.fault {
            Some(Fault::WideWindow) => bands % BANDS_MOST + 1,
            _ => bands,
        }
    }

    // The bands that are said.
    pub fn said_bands(self, bands: usize) -> usize {
        match self.fault {
            Some(Fault::ManyBands) => BANDS_MOST + 1,
            Some(Fault::NoBands) => 0,
            _ => bands,
        }
    }

    pub fn spoil_values(self, values: &mut [f32]) {
        if self.fault == Some(Fault::NegativeValue) && self.at < values.len() {
            values[self.at] = -1.0;
        }
    }

    pub fn spoil_times(self, times: &mut [f64], hop: f64) {
        if self.fault == Some(Fault::LateTime) && self.at < times.len() {
            times[self.at] += hop * 0.3;
        }
    }
}

// The first n of a list, or all where it has fewer.
pub fn part<T>(list: &[T], n: usize) -> &[T] {
    let end = n.min(list.len());
    &list[..end]
}
