//! How numbers are read and printed.
use check_lines::Told;
use std::str::FromStr;

fn add_number<T: FromStr + Drop>(item: &str, numbers: &mut Vec<T>) -> Option<()>
where
    T::Err: Drop,
{
    numbers.push(item.parse().ok()?).ok()
}

// Appends the numbers of a list, `-` if it is empty.
pub(crate) fn add_numbers<T: FromStr + Drop>(list: &str, numbers: &mut Vec<T>, told: &mut Told)
where
    T::Err: Drop,
{
    if list == "-" {
        return;
    }
    for item in list.split(',') {
        told.keep(add_number(item, numbers));
    }
}

// Returns the two numbers of an item.
pub(crate) fn pair_of<A: FromStr + Drop, B: FromStr + Drop>(item: &str) -> Option<(A, B)>
where
    A::Err: Drop,
    B::Err: Drop,
{
    let (first, second) = item.split_once('/')?;
    Some((first.parse().ok()?, second.parse().ok()?))
}

fn add_pair<A: FromStr + Drop, B: FromStr + Drop>(item: &str, pairs: &mut Vec<(A, B)>) -> Option<()>
where
    A::Err: Drop,
    B::Err: Drop,
{
    pairs.push(pair_of(item)?).ok()
}

// Appends the items of a list, `-` if it is empty.
pub(crate) fn add_pairs<A: FromStr + Drop, B: FromStr + Drop>(
    list: &str,
    pairs: &mut Vec<(A, B)>,
    told: &mut Told,
)
where
    A::Err: Drop,
    B::Err: Drop,
{
    if list == "-" {
        return;
    }
    for item in list.split(',') {
        told.keep(add_pair(item, pairs));
    }
}

// Prints a number.
pub(crate) fn put(number: i128, told: &mut Told) {
    told.put_number(" ", number);
}

// Prints two numbers as one item.
pub(crate) fn put_pair(first: i128, second: i128, told: &mut Told) {
    told.put_number(" ", first);
    told.put_number("/", second);
}

// Prints a word.
pub(crate) fn put_word(word: &str, told: &mut Told) {
    told.put(" ");
    told.put(word);
}

// Prints whether something holds.
pub(crate) fn put_answer(holds: bool, told: &mut Told) {
    put_word(if holds { "yes" } else { "no" }, told)
}

// Prints prices or imbalances.
pub(crate) fn put_prices(prices: &[i64], told: &mut Told) {
    for price in prices {
        put((*price).into(), told);
    }
}

// Prints rates.
pub(crate) fn put_rates(rates: &[u32], told: &mut Told) {
    for rate in rates {
        put((*rate).into(), told);
    }
}

// Prints the assets of moves.
pub(crate) fn put_moves(moves: &[u8], told: &mut Told) {
    for asset in moves {
        put((*asset).into(), told);
    }
}
