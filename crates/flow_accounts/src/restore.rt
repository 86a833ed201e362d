//! Making accounts with all their balances at once.
ghost use Rattle.std.specs.Prelude.{◌≡◌, ◌-◌, ◌≤◌, length, replicate, slice_index_or, slice_set, pos, IfOk, OnOk};
ghost use Rattle.flow_accounts.specs.Balances.{IsAccount, account_count, asset_count, account_of, credit_of};
ghost use Rattle.flow_accounts.specs.Lawful.{AreLawful};
ghost use Rattle.flow_accounts.specs.NoCredit.{no_line, no_holding};
ghost use Rattle.flow_accounts.specs.Parts.{AreHoldingsOf, AreCreditLinesOf, ArePlacesOf};

use crate::credit_lines::CreditLines;
use crate::lines::Lines;
use crate::places::no_units;
use crate::{AccountParts, Accounts, PLACES};
use out_of_memory::Memory;
use std::alloc::{AllocError, Global};

impl Accounts {
    /// Makes accounts with all balances, credits and totals that are read from `parts`. These have to be within the limits,
    /// and no balance below minus its credit.
    ///
    /// It reads each number once, and allocates four times, together 1,048 bytes for each account, of which no more is written
    /// than its balances and credits take; `Memory` comes only if one of these allocations fails.
    pub fn restore<P: AccountParts>(alloc: Global, parts: &P) -> Result<Accounts, Memory>
        requires lawful { AreLawful (P.balances parts.now) }
        ensures restored { IfOk result (λ accounts. accounts ≡ P.balances parts.now) }
    {
        let holdings = holdings_of(alloc, parts)?;
        let credits = credit_lines_of(alloc, parts)?;
        Ok(Accounts {
            holdings,
            credits,
            total_money: parts.total_money(),
            total_units: totals_of(parts),
        })
    }
}

// Reads what each account holds.
fn holdings_of<P: AccountParts>(alloc: Global, parts: &P) -> Result<Lines<i128, i64>, AllocError>
    requires lawful { AreLawful (P.balances parts.now) }
    ensures { IfOk result (λ holdings.
        AreHoldingsOf (P.balances parts.now) (account_count (P.balances parts.now)) holdings) }
{
    let count = parts.account_count();
    let mut holdings = Lines::new(alloc, parts.asset_count(), 0);
    holdings.reserve(count as usize)?;
    for place in 0..count {
        add_holding(parts, place + 1, &mut holdings);
    }
    Ok(holdings)
}

// Reads the credits of each account.
fn credit_lines_of<P: AccountParts>(alloc: Global, parts: &P) -> Result<CreditLines, AllocError>
    requires lawful { AreLawful (P.balances parts.now) }
    ensures { IfOk result (λ lines.
        AreCreditLinesOf (P.balances parts.now) (account_count (P.balances parts.now)) lines) }
{
    let count = parts.account_count();
    let mut lines = CreditLines::new(alloc, parts.asset_count());
    lines.reserve(count as usize)?;
    for place in 0..count {
        add_credit_line(parts, place + 1, &mut lines)?;
    }
    Ok(lines)
}

// Reads what one account holds, and adds it.
fn add_holding<P: AccountParts>(parts: &P, account: u32, holdings: &mut Lines<i128, i64>)
    requires lawful { AreLawful (P.balances parts.now) }
    requires account { IsAccount (P.balances parts.now) account }
    requires room { account ≤ holdings.old.room }
    requires before { AreHoldingsOf (P.balances parts.now) (account - 1) holdings.old }
    ensures added { AreHoldingsOf (P.balances parts.now) account holdings.new }
    ensures room { holdings.old.room ≤ holdings.new.room }
{
    holdings.push(parts.money(account).unwrap());
    read_units(parts, account, holdings);
}

// Reads the units of each asset that one account holds. Its line has none yet.
fn read_units<P: AccountParts>(parts: &P, account: u32, holdings: &mut Lines<i128, i64>)
    requires lawful { AreLawful (P.balances parts.now) }
    requires account { IsAccount (P.balances parts.now) account }
    requires line { account ≤ length holdings.old.lines }
    requires assets { holdings.old.assets ≡ asset_count (P.balances parts.now) }
    requires none { (slice_index_or holdings.old.lines (account - 1) no_holding).units ≡ replicate holdings.old.assets (pos 0) }
    ensures { holdings.new ≡ record holdings.old {
      lines = slice_set holdings.old.lines (account - 1)
          (record (slice_index_or holdings.old.lines (account - 1) no_holding) { units = (account_of (P.balances parts.now) account).units });
    } }
{
    let line = account as usize - 1;
    for asset in 0..parts.asset_count() {
        holdings.set_units(line, asset, parts.units(account, asset).unwrap());
    }
}

// Reads the credits of one account, and adds them. Those of an account without credit are added without being stored.
fn add_credit_line<P: AccountParts>(
    parts: &P,
    account: u32,
    lines: &mut CreditLines,
) -> Result<(), AllocError>
    requires lawful { AreLawful (P.balances parts.now) }
    requires account { IsAccount (P.balances parts.now) account }
    requires before { AreCreditLinesOf (P.balances parts.now) (account - 1) lines.old }
    ensures added { OnOk result (AreCreditLinesOf (P.balances parts.now) account lines.new) }
{
    lines.add()?;
    lines.set_money(account as usize - 1, parts.money_credit(account).unwrap());
    read_unit_credits(parts, account, lines);
    Ok(())
}

// Reads the credits of one account in each asset. Its line has none yet.
fn read_unit_credits<P: AccountParts>(parts: &P, account: u32, lines: &mut CreditLines)
    requires lawful { AreLawful (P.balances parts.now) }
    requires account { IsAccount (P.balances parts.now) account }
    requires line { account ≤ length lines.old.lines }
    requires assets { lines.old.assets ≡ asset_count (P.balances parts.now) }
    requires none { (slice_index_or lines.old.lines (account - 1) (no_line lines.old.assets)).units ≡ replicate lines.old.assets 0 }
    ensures { lines.new ≡ record lines.old {
      lines = slice_set lines.old.lines (account - 1)
          (record (slice_index_or lines.old.lines (account - 1) (no_line lines.old.assets)) { units = (credit_of (P.balances parts.now) account).units });
    } }
{
    let line = account as usize - 1;
    for asset in 0..parts.asset_count() {
        lines.set_units(line, asset, parts.unit_credit(account, asset).unwrap());
    }
}

// Reads the total of each asset.
fn totals_of<P: AccountParts>(parts: &P) -> [i64; PLACES]
    requires lawful { AreLawful (P.balances parts.now) }
    ensures { ArePlacesOf (asset_count (P.balances parts.now))
        (P.balances parts.now).totals.units result }
{
    let mut totals = no_units();
    for asset in 0..parts.asset_count() {
        totals[usize::from(asset)] = parts.total_units(asset).unwrap();
    }
    totals
}
