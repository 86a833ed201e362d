//! At which place a question's answer changes.
ghost use Rattle.std.specs.Prelude.{int_le};

use crate::telling::{pair_of, put, put_answer};
use check_lines::Told;
use single_bisect::{Probe, greatest_true, least_true};

/// Answers yes from `turn` on.
#[derive(Drop)]
struct From {
    turn: i64,
    asks: u64,
}

impl Probe for From {
    ghost test = { λ probe place. int_le probe.turn place };

    ghost asked = { λ probe. probe.asks };

    fn at(&mut self, place: i64) -> bool {
        self.asks += 1;
        self.turn <= place
    }
}

/// Answers yes up to `turn`.
#[derive(Drop)]
struct UpTo {
    turn: i64,
    asks: u64,
}

impl Probe for UpTo {
    ghost test = { λ probe place. int_le place probe.turn };

    ghost asked = { λ probe. probe.asks };

    fn at(&mut self, place: i64) -> bool {
        self.asks += 1;
        place <= self.turn
    }
}

const END: i64 = 1 << 62;

// Prints the least place with a yes, and the greatest one of the other question, and whether `most` asks were enough.
fn put_places(ends: (i64, i64), before: i64, most: u64, told: &mut Told) {
    let (low, high) = ends;
    if low < -END || before < low || high <= before || END < high {
        return told.give_up();
    }
    let mut probe = From {
        turn: before + 1,
        asks: 7,
    };
    put(least_true(&mut probe, low, high).into(), told);
    put_answer(probe.asks - 7 <= most, told);
    let mut probe = UpTo {
        turn: before,
        asks: 7,
    };
    put(greatest_true(&mut probe, low, high).into(), told);
    put_answer(probe.asks - 7 <= most, told);
}

// Prints where the answers to two questions change: at two ends, after the last place with the one answer, by at most so many asks.
pub(crate) fn put_turn(words: &str, told: &mut Told) {
    let (ends, words) = words.split_once(' ').unwrap_or((words, ""));
    match (pair_of(ends), pair_of(words)) {
        (Some(ends), Some((before, most))) => put_places(ends, before, most, told),
        _ => told.give_up(),
    }
}
