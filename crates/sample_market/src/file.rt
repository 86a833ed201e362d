//! The command file.
ghost use Rattle.std.specs.Prelude.{◌≡◌, ◌≤◌, ◌++◌, OnOk, IfOk};
ghost use Rattle.sample_market.specs.Orders.{drawn_orders};
ghost use Rattle.sample_market.specs.Files.{new_assets, new_accounts, unit_deposits, all_deposits, batches, encode_commands, sample_file};

use crate::draws::Draws;
use crate::orders::order;
use std::alloc::Global;
use wire_records::{COMMAND_MAGIC, Command, Memory, write_command};

/// The most orders of a sample.
pub const MOST_ORDERS: u32 = 16_384;

// How many assets a sample has.
const ASSETS: u8 = 8;

// How many accounts a sample has.
const ACCOUNTS: u32 = 64;

// How many batches a sample has.
const BATCHES: u32 = 4;

// The bytes of a file without orders.
const BARE_FILE: usize = 11_284;

// The most bytes of the record of an order, which has at most three legs.
const LONGEST_ORDER: usize = 56;

// What is deposited into an account: ticks, and units of each asset.
const AMPLE: u64 = 1 << 50;

// The most moves of a batch.
const BUDGET: u32 = 1000;

// Appends the records of the assets A0 to A7.
fn put_assets(file: &mut Vec<u8>) -> Result<(), Memory>
    ensures { OnOk result (file.new.items ≡ file.old.items ++ encode_commands new_assets) }
{
    for asset in 0..ASSETS {
        let ticker = [b'A', b'0' + asset, b' ', b' ', b' ', b' ', b' ', b' '];
        write_command(&Command::AddAsset { ticker }, file)?;
    }
    Ok(())
}

// Appends the records that open the accounts.
fn put_accounts(file: &mut Vec<u8>) -> Result<(), Memory>
    ensures { OnOk result (file.new.items ≡ file.old.items ++ encode_commands new_accounts) }
{
    for _ in 0..ACCOUNTS {
        write_command(&Command::OpenAccount, file)?;
    }
    Ok(())
}

// Appends the records of an account's deposits in assets.
fn put_units(account: u32, file: &mut Vec<u8>) -> Result<(), Memory>
    ensures { OnOk result (file.new.items ≡ file.old.items ++ encode_commands (unit_deposits account)) }
{
    for asset in 0..ASSETS {
        let deposit = Command::DepositAsset {
            account,
            asset: u16::from(asset),
            units: AMPLE,
        };
        write_command(&deposit, file)?;
    }
    Ok(())
}

// Appends the records of all deposits.
fn put_deposits(file: &mut Vec<u8>) -> Result<(), Memory>
    ensures { OnOk result (file.new.items ≡ file.old.items ++ encode_commands all_deposits) }
{
    for account in 1..ACCOUNTS + 1 {
        let deposit = Command::DepositMoney {
            account,
            ticks: AMPLE,
        };
        write_command(&deposit, file)?;
        put_units(account, file)?;
    }
    Ok(())
}

// Appends the records of so many orders.
fn put_orders(alloc: Global, number: u64, orders: u32, file: &mut Vec<u8>) -> Result<(), Memory>
    ensures { OnOk result (file.new.items ≡ file.old.items ++ encode_commands (drawn_orders orders 0 number)) }
{
    let mut draws = Draws::new(number);
    for place in 0..orders {
        write_command(&order(alloc, &mut draws, place)?, file)?;
    }
    Ok(())
}

// Appends the records of the batches.
fn put_batches(file: &mut Vec<u8>) -> Result<(), Memory>
    ensures { OnOk result (file.new.items ≡ file.old.items ++ encode_commands batches) }
{
    for _ in 0..BATCHES {
        write_command(&Command::RunBatch { budget: BUDGET }, file)?;
    }
    Ok(())
}

/// Returns the command file of a sample, of version One: the assets `A0` to `A7`, 64 accounts, for each of these 2^50 ticks
/// and 2^50 units of each asset, so many orders, 1 to 16,384, that are drawn from the number on, and four batches of at
/// most 1,000 moves.
///
/// The orders go to the accounts one after the other. Each names one to three consecutive assets with absolute weights of 1 to
/// 4, and has limits at most 70 ticks off the price of its weight vector, if asset k costs 1,000 times k + 1 ticks, a rate of
/// 1 to 1,000 and a cap of 1 to 20 such rates.
///
/// The cost is that of the bytes, at most 11,284 and 56 for each order. The memory for all of them is allocated first, and
/// that of one order's legs is freed after it; `Memory` if memory runs out.
pub fn sample_commands(alloc: Global, number: u64, orders: u32) -> Result<Vec<u8>, Memory>
    requires some { 1 ≤ orders }
    requires few { orders ≤ MOST_ORDERS }
    ensures { IfOk result (λ file. file.items ≡ sample_file number orders) }
{
    let room = BARE_FILE + LONGEST_ORDER * orders as usize;
    let mut file = Vec::with_capacity(alloc, room)?;
    file.extend_from_slice(&COMMAND_MAGIC)?;
    put_assets(&mut file)?;
    put_accounts(&mut file)?;
    put_deposits(&mut file)?;
    put_orders(alloc, number, orders, &mut file)?;
    put_batches(&mut file)?;
    Ok(file)
}
