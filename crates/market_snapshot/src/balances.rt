//! How balances are written in a checkpoint.
ghost use Rattle.std.specs.Prelude.{◌≡◌, ◌+◌, ◌*◌, ◌≤◌, ◌++◌, length, vec_len, vec_capacity};
ghost use Rattle.std.specs.List.{flat_map, zip};
ghost use Rattle.flow_accounts.specs.Balances.{IsAccount, account_count, asset_count, account_of, credit_of};
ghost use Rattle.market_snapshot.specs.Layout.{account_size};
ghost use Rattle.market_snapshot.specs.Encodings.{units_encoding, account_encoding, accounts_encoding, totals_encoding, exchange_encoding};

use flow_accounts::Accounts;
use residual_account::ResidualAccount;
use wire_fields::{put_i64, put_i128, put_u32, put_u64};

// Appends the units of each asset that an account holds, each with the account's credit in that asset.
fn put_units(out: &mut Vec<u8>, accounts: &Accounts, account: u32)
    requires account { IsAccount accounts.now account }
    requires room { vec_len out.old + 16 * asset_count accounts.now ≤ vec_capacity out.old }
    ensures written { out.new.items ≡ out.old.items
        ++ flat_map units_encoding (zip (account_of accounts.now account).units (credit_of accounts.now account).units) }
    ensures len { vec_len out.new ≡ vec_len out.old + 16 * asset_count accounts.now }
    ensures capacity { vec_capacity out.new ≡ vec_capacity out.old }
{
    for asset in 0..accounts.assets() {
        put_i64(out, accounts.units(account, asset).unwrap());
        put_u64(out, accounts.unit_credit(account, asset).unwrap());
    }
}

// Appends an account and its credit line.
fn put_account(out: &mut Vec<u8>, accounts: &Accounts, account: u32)
    requires account { IsAccount accounts.now account }
    requires room { vec_len out.old + account_size (asset_count accounts.now) ≤ vec_capacity out.old }
    ensures written { out.new.items ≡ out.old.items
        ++ account_encoding (account_of accounts.now account, credit_of accounts.now account) }
    ensures len { vec_len out.new ≡ vec_len out.old + account_size (asset_count accounts.now) }
    ensures capacity { vec_capacity out.new ≡ vec_capacity out.old }
{
    put_i128(out, accounts.money(account).unwrap());
    put_u64(out, accounts.money_credit(account).unwrap());
    put_units(out, accounts, account);
}

// Appends how many accounts there are, and the accounts.
pub(crate) fn put_accounts(out: &mut Vec<u8>, accounts: &Accounts)
    requires { vec_len out.old + (4 + account_size (asset_count accounts.now) * account_count accounts.now) ≤ vec_capacity out.old }
    ensures written { out.new.items ≡ out.old.items ++ accounts_encoding accounts.now }
    ensures len { vec_len out.new ≡ vec_len out.old + (4 + account_size (asset_count accounts.now) * account_count accounts.now) }
    ensures capacity { vec_capacity out.new ≡ vec_capacity out.old }
{
    put_u32(out, accounts.count());
    for place in 0..accounts.count() {
        put_account(out, accounts, place + 1);
    }
}

// Appends the totals of deposits less withdrawals.
pub(crate) fn put_totals(out: &mut Vec<u8>, accounts: &Accounts)
    requires { vec_len out.old + (16 + 8 * asset_count accounts.now) ≤ vec_capacity out.old }
    ensures written { out.new.items ≡ out.old.items ++ totals_encoding accounts.now }
    ensures len { vec_len out.new ≡ vec_len out.old + (16 + 8 * asset_count accounts.now) }
    ensures capacity { vec_capacity out.new ≡ vec_capacity out.old }
{
    put_i128(out, accounts.total_money());
    for asset in 0..accounts.assets() {
        put_i64(out, accounts.total_units(asset).unwrap());
    }
}

// Appends the exchange's own account.
pub(crate) fn put_exchange(out: &mut Vec<u8>, exchange: &ResidualAccount)
    requires { vec_len out.old + (16 + 8 * length exchange.now.units) ≤ vec_capacity out.old }
    ensures written { out.new.items ≡ out.old.items ++ exchange_encoding exchange.now }
    ensures len { vec_len out.new ≡ vec_len out.old + (16 + 8 * length exchange.now.units) }
    ensures capacity { vec_capacity out.new ≡ vec_capacity out.old }
{
    put_i128(out, exchange.money());
    for asset in 0..exchange.assets() {
        put_i64(out, exchange.units(asset));
    }
}
