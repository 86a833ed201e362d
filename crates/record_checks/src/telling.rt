//! How values are printed.
use check_lines::Told;
use weight_rows::Entry;
use wire_records::Command;

const DIGITS: [&str; 16] = [
    "0", "1", "2", "3", "4", "5", "6", "7", "8", "9", "a", "b", "c", "d", "e", "f",
];

// Prints a word, and numbers after it.
pub(crate) fn put(word: &str, numbers: &[i128], told: &mut Told) {
    told.put(" ");
    told.put(word);
    for number in numbers {
        told.put_number(" ", *number);
    }
}

// Prints bytes in hexadecimal digits.
pub(crate) fn put_bytes(bytes: &[u8], told: &mut Told) {
    told.put(" ");
    if bytes.is_empty() {
        told.put("-");
    }
    for byte in bytes {
        told.put(DIGITS[usize::from(*byte / 16)]);
        told.put(DIGITS[usize::from(*byte % 16)]);
    }
}

// Prints an item of a list.
pub(crate) fn put_item(first: i128, second: i128, told: &mut Told) {
    told.put_number(" ", first);
    told.put_number("/", second);
}

fn put_entries(entries: &[Entry], told: &mut Told) {
    for entry in entries {
        put_item(entry.asset.into(), entry.weight.into(), told);
    }
    told.put(" -");
}

// Prints a command with its fields.
pub(crate) fn put_command(command: Command, told: &mut Told) {
    match command {
        Command::AddAsset { ticker } => {
            put("add_asset", &[], told);
            put_bytes(&ticker, told)
        }
        Command::OpenAccount => put("open_account", &[], told),
        Command::DepositMoney { account, ticks } => {
            put("deposit_money", &[account.into(), ticks.into()], told)
        }
        Command::DepositAsset {
            account,
            asset,
            units,
        } => {
            let numbers = [account.into(), asset.into(), units.into()];
            put("deposit_asset", &numbers, told)
        }
        Command::WithdrawMoney { account, ticks } => {
            put("withdraw_money", &[account.into(), ticks.into()], told)
        }
        Command::WithdrawAsset {
            account,
            asset,
            units,
        } => {
            let numbers = [account.into(), asset.into(), units.into()];
            put("withdraw_asset", &numbers, told)
        }
        Command::PlaceOrder {
            account,
            low,
            high,
            rate,
            cap,
            row,
        } => {
            let numbers = [
                account.into(),
                low.into(),
                high.into(),
                rate.into(),
                cap.into(),
            ];
            put("place_order", &numbers, told);
            put_entries(row.as_slice(), told)
        }
        Command::CancelOrder { account, order } => {
            put("cancel_order", &[account.into(), order.into()], told)
        }
        Command::RunBatch { budget } => put("run_batch", &[budget.into()], told),
        Command::PlaceUntil {
            last,
            account,
            low,
            high,
            rate,
            cap,
            row,
        } => {
            let numbers = [
                last.into(),
                account.into(),
                low.into(),
                high.into(),
                rate.into(),
                cap.into(),
            ];
            put("place_until", &numbers, told);
            put_entries(row.as_slice(), told)
        }
        Command::SetMoneyCredit { account, ticks } => {
            put("set_money_credit", &[account.into(), ticks.into()], told)
        }
        Command::SetUnitCredit {
            account,
            asset,
            units,
        } => {
            let numbers = [account.into(), asset.into(), units.into()];
            put("set_unit_credit", &numbers, told)
        }
    }
}
