//! Calls on accounts and orders: balances (`flow_accounts`), the exchange's own account (`residual_account`), orders and what they need
//! (`flow_orders`), and the book (`order_book`). There is one case on each line of standard input, and its result on standard output.
//! One more case costs no proof.
//!
//! A line is a remark or a case, `WORDS:`, as `check_lines` says; remarks are passed on as they are. What is printed begins with the
//! first word. CALLS follow one another with `;` between them: each is printed in a row, with its answer.
//!
//! | case | what is done, and what is printed |
//! |---|---|
//! | `accounts CALLS:` | each call is made on accounts, of which there is none at first |
//! | `residual CALLS:` | each is made on the account of an exchange, which has no asset at first |
//! | `book CALLS:` | each is made on a book, which has no order at first |
//! | `fault LOW HIGH RATE CAP:` | `order_fault`: `none`, `limits`, `rate` or `cap` |
//! | `need HIGH WEIGHT LEFT:` | `money_need`, `unit_need`: the grains and the units |
//! | `fills AMOUNTS; ORDER:` | `order` and its numbers, with its weight of asset 0. Then the order is filled by each amount: `live`, `full` or `refused`, how much of it is filled, and its curve |
//! | `sums ASSETS; ORDER; ORDER ..:` | whether each order is `placed` or `faulty`, and for each asset `spread` and `steepness` of those that are placed |
//!
//! An ORDER is `NUMBER ACCOUNT LOW HIGH RATE CAP LEGS`, its legs `ASSET/WEIGHT` with commas between them. A PLACE is an account, for its
//! money, or `ACCOUNT/ASSET`. What is RESERVED is 0 if it isn't said.
//!
//! | call | what it calls |
//! |---|---|
//! | `open COUNT`, `assets COUNT` | `add_account` and `add_asset` so often. Each number has to follow the one before |
//! | `deposit PLACE AMOUNT`, `withdraw PLACE AMOUNT RESERVED` | `deposit_money`, `deposit_units`, `withdraw_money`, `withdraw_units` |
//! | `take PLACE AMOUNT RESERVED` | `money_withdrawal`, `unit_withdrawal` |
//! | `credit PLACE AMOUNT RESERVED` | `set_money_credit`, `set_unit_credit` |
//! | `change PLACE AMOUNT` | `add_money`, `add_units`: the balance then |
//! | `balance PLACE`, `line PLACE`, `total`, `total ASSET` | `money`, `units`; `money_credit`, `unit_credit`; `total_money`, `total_units` |
//! | of an exchange: `assets COUNT`, `units ASSET`, `add ASSET UNITS MONEY` | `add_asset`; `units`; `add`: what it holds then, or `none` if the sums don't fit |
//! | of a book: `place ORDER`, `cancel ACCOUNT NUMBER`, `has ACCOUNT NUMBER`, `fill RATES` | `add`, `cancel`, `has_order`, `fill` |
//! | of a book: `needs PLACES`, `orders` | `money_needed`, `units_needed` and the count; the numbers of the live orders |
//!
//! What a call requires is tested first. Where it doesn't hold, the case is `not done`.
//!
//! What is in `stdout` comes from the rules of the market, by hand.
#![tactic(auto)]

mod balances;
mod books;
mod limits;
mod orders;
mod places;
mod placing;
mod residual;
mod telling;

use check_lines::{Line, Names, Told};
use std::alloc::Global;
use std::io;

// Prints the result of calls one after the other, each in a row.
fn put_calls(alloc: Global, of: &str, calls: &str, told: &mut Told) {
    told.put("\n");
    match of {
        "accounts" => balances::put_calls(alloc, calls, told),
        "residual" => residual::put_calls(calls, told),
        "book" => books::put_calls(alloc, calls, told),
        _ => told.give_up(),
    }
}

// Prints the result of a case.
fn put_case(alloc: Global, words: (&str, &str), told: &mut Told) {
    match words.0 {
        "fault" => orders::put_fault(words.1, told),
        "need" => orders::put_need(words.1, told),
        "fills" => orders::put_filling(alloc, words.1, told),
        "sums" => orders::put_sums(alloc, words.1, told),
        _ => return put_calls(alloc, words.0, words.1, told),
    }
    told.put("\n");
}

// Prints the result of a line.
fn put_line(alloc: Global, names: &mut Names, line: &str, told: &mut Told) {
    match names.read(line) {
        Some(Line::Remark) => {
            told.put(line);
            told.put("\n");
        }
        Some(Line::Named) => (),
        Some(Line::Case(words, _)) => {
            let words = words.split_once(' ').unwrap_or((words, ""));
            told.put(words.0);
            put_case(alloc, words, told);
        }
        None => told.give_up(),
    }
}

fn main(rt: HostRuntime) -> io::Result<()> {
    let mut names = Names::new(rt.alloc());
    for line in rt.lines(rt.alloc()) {
        let mut told = Told::new(rt.alloc());
        put_line(rt.alloc(), &mut names, line?.as_str(), &mut told);
        match told.rows() {
            Some(rows) => print!(rt; "{rows}")?,
            None => println!(rt; "not done")?,
        }
    }
    Ok(())
}
