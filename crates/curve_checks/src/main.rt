//! Calls of what a batch is made of, from one demand curve to an outcome: one call on each line of standard input, and its result on
//! standard output. One more case costs no proof.
//!
//! A line is a remark, a name for bytes, or a case, as `check_lines` says; remarks are passed on as they are. A case is a call, what it is
//! called with, and a text. What is printed begins with the words before the colon.
//!
//! | case | calls | printed |
//! |---|---|---|
//! | `curve PRICE: CURVE` | `scaled`, `floor_rate`, `ceil_rate`, `loss` of both, `dual_floor`, `is_rounded` | these numbers, and whether the rates next below both, both, and next above both are roundings |
//! | `roundings PRICE: CURVE` | `roundings`, `floor_rate`, `ceil_rate` | these numbers |
//! | `parts PARTS PRICE: CURVE` | `roundings_in` | both |
//! | `turn LOW/HIGH BEFORE/MOST:` | `least_true` of a question with the answer yes after BEFORE; `greatest_true` of one with yes up to it | each place, and whether MOST asks were enough |
//! | `dual PRICES: BOOK` | `dual_floor` | the dual value |
//! | `floors PRICES: BOOK` | `floor_rates` | the rates |
//! | `rates PRICES: BOOK` | `chosen_rates` | the rates |
//! | `certify PRICES RATES: BOOK` | `certify` | the clearing, or `no roundings` |
//! | `verdict PRICES ASSETS FILLS GAP: BOOK` | `check_cleared` | `right`, `count`, `price PLACE`, `rate PLACE`, `residual PLACE` or `gap` |
//! | `asset PRICES ASSET: BOOK` | `spread`, `steepness`, `column` | both bounds, and the column |
//! | `changes PRICES CHANGES: BOOK` | `excess_at`, `set_price`, `excess`, `is_settled` for each change | the prices; then a row for each change: both bounds before it and after it, and whether the asset is settled |
//! | `excess PRICES PARTS ASSET/PRICE: BOOK` | `excess_at` | both bounds |
//! | `amount PRICES PARTS/ASSET WAY REACH: BOOK` | `move_amount`, of a rise if WAY is `rise`, of a fall if it is `fall` | the grains |
//! | `even PRICES: BOOK` | `is_even` and `direction` of each asset, `first_uneven`, `first_uneven_of` | `even`, `rise` or `fall` for each asset; then `first`, and the first asset that isn't even or `none`, by both calls |
//! | `settle PRICES PARTS: BOOK` | `settle_single` | `at` and the prices |
//! | `step PRICES PARTS REACH: BOOK` | `step` of asset 0 | `at` and the prices |
//! | `search PRICES PARTS BUDGET: BOOK` | `search` | `settled` or `spent`, the moves, `at` and the prices |
//! | `retrace PRICES PARTS MOVES: BOOK` | `retrace` | `legal` or `illegal PLACE`, `at` and the prices |
//! | `joint PRICES WAY: BOOK` | `joint_prices_by` rounds, with the barrier halved twice in each step, if WAY is `rounds`; `joint_prices_quickly` if it is `quickly`; `joint_prices_slowly` if it is `slowly` | `at` and the prices |
//! | `clear PRICES WAY PARTS/BUDGET: BOOK` | `clear`, with joint prices if WAY is `joint`, without them if it is `walks` | the clearing, or the skip |
//!
//! - A CURVE is `LOW/HIGH,RATE/ROOM`, with both limits in grains and the batch maximum.
//! - A BOOK has an order after the other, each `LOW/HIGH,RATE/CAP,FILLED,LEGS;` with limits in ticks. A leg is `ASSET/WEIGHT`. Orders are
//!   numbered from 1. PRICES are those of the assets from 0 on, in grains.
//! - ASSETS are prices with imbalances, as `99/-1,101/0`, and FILLS numbers of orders with their rates. CHANGES are assets with prices.
//! - An empty list is `-`.
//! - A clearing is printed as `cleared PRICES rates RATES imbalances IMBALANCES gap GAP`, a skip as `skipped START END moves MOVES`, with
//!   the dual values before and after the moves.
//! - Joint prices are searched for with a test that no prices pass, which has 40 parts open of each asset.
//!
//! What is in `stdout` was computed in fractions by another program, with pencil and paper, or by the market of `tools/dev/make_samples`;
//! joint prices by a program of lists that follows their definition.
#![tactic(auto)]

mod batches;
mod books;
mod curves;
mod even;
mod excess;
mod joint;
mod moves;
mod rates;
mod telling;
mod turns;
mod verdicts;

use books::{Book, add_orders, book_of};
use check_lines::{Line, Names, Told};
use flow_orders::Order;
use std::alloc::Global;
use std::io;
use telling::add_numbers;

// Prints the result of a call over a book and prices.
fn put_over_book(alloc: Global, words: (&str, &str), book: &Book<'_>, told: &mut Told) {
    let (call, with) = words;
    match call {
        "dual" => batches::put_dual(book, told),
        "clear" => batches::put_batch(alloc, with, book, told),
        "floors" => rates::put_floors(alloc, book, told),
        "rates" => rates::put_chosen(alloc, book, told),
        "certify" => rates::put_certificate(alloc, with, book, told),
        "verdict" => verdicts::put_judged(alloc, with, book, told),
        "asset" => excess::put_asset(alloc, with, book, told),
        "changes" => excess::put_changes(alloc, with, book, told),
        "excess" => excess::put_excess_in(alloc, with, book, told),
        "amount" => excess::put_move(alloc, with, book, told),
        "even" => even::put_even(alloc, book, told),
        "joint" => joint::put_joint(alloc, with, book, told),
        "settle" | "step" | "search" | "retrace" => moves::put_moved(alloc, call, with, book, told),
        _ => told.give_up(),
    }
}

fn put_over_orders(
    alloc: Global,
    words: (&str, &str),
    orders: &[Order],
    prices: &[i64],
    told: &mut Told,
) {
    match book_of(orders, prices) {
        Some(book) => put_over_book(alloc, words, &book, told),
        None => told.give_up(),
    }
}

// Prints the result of a call over the prices that its words begin with, and the orders of a text.
fn put_over_text(alloc: Global, words: (&str, &str), text: &str, told: &mut Told) {
    let (call, with) = words;
    let (list, with) = with.split_once(' ').unwrap_or((with, ""));
    let mut prices = Vec::new(alloc);
    add_numbers(list, &mut prices, told);
    let mut orders = Vec::new(alloc);
    add_orders(alloc, text, &mut orders, told);
    put_over_orders(alloc, (call, with), &orders, &prices, told)
}

// Prints the result of a call.
fn put_case(alloc: Global, words: &str, text: &str, told: &mut Told) {
    let (call, with) = words.split_once(' ').unwrap_or((words, ""));
    match call {
        "curve" => curves::put_curve(with, text, told),
        "roundings" => curves::put_roundings(with, text, told),
        "parts" => curves::put_parts(with, text, told),
        "turn" => turns::put_turn(with, told),
        _ => put_over_text(alloc, (call, with), text, told),
    }
}

fn put_result(alloc: Global, words: &str, bytes: &[u8], told: &mut Told) {
    told.put(words);
    told.put(":");
    match str::from_utf8(bytes) {
        Ok(text) => put_case(alloc, words, text, told),
        Err(_) => told.give_up(),
    }
    told.put("\n");
}

// Prints the result of a line.
fn put_line(alloc: Global, names: &mut Names, line: &str, told: &mut Told) {
    match names.read(line) {
        Some(Line::Remark) => {
            told.put(line);
            told.put("\n");
        }
        Some(Line::Named) => (),
        Some(Line::Case(words, bytes)) => put_result(alloc, words, &bytes, told),
        None => told.give_up(),
    }
}

fn main(rt: HostRuntime) -> io::Result<()> {
    let mut names = Names::new(rt.alloc());
    for line in rt.lines(rt.alloc()) {
        let mut told = Told::new(rt.alloc());
        put_line(rt.alloc(), &mut names, line?.as_str(), &mut told);
        match told.rows() {
            Some(rows) => print!(rt; "{rows}")?,
            None => println!(rt; "not done")?,
        }
    }
    Ok(())
}
