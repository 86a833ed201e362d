//! Laws of the operations on balances. Each function does nothing: its contract is the law, over
//! all balances.

ghost use Rattle.flow_accounts.specs.Laws.{AccountsOpenEmpty, AssetsStartAtZero, MoneyMoves, NoBalanceIsBelowItsCredit, UnitsMove, MoneyCreditIsSet, UnitCreditIsSet, CreditsKeepLaw, MoneyChanges, UnitsChange, TotalsStaySums, SumsBoundBalances, ChangesFitNearSums, ChangesFitAtSums};

/// An account that is opened holds nothing and has no credit, and no balance, credit or sum changes.
pub fn accounts_open_empty()
    ensures { AccountsOpenEmpty }
{}

/// Nobody holds a unit of an asset that is added or has credit in it, and no balance, credit or sum changes.
pub fn assets_start_at_zero()
    ensures { AssetsStartAtZero }
{}

/// Moving money changes one balance by the amount, and so the sum over all accounts.
pub fn money_moves()
    ensures { MoneyMoves }
{}

/// Moving units changes one balance by the amount, and so the sum of their asset.
pub fn units_move()
    ensures { UnitsMove }
{}

/// A deposit or withdrawal of money changes one balance by the amount, and so the sum over all accounts.
pub fn money_changes()
    ensures { MoneyChanges }
{}

/// A deposit or withdrawal of units changes one balance and one total by the amount, and so the sum
/// of the asset.
pub fn units_change()
    ensures { UnitsChange }
{}

/// Totals that are the sums over all accounts stay so through openings, new assets, deposits and
/// withdrawals.
pub fn totals_stay_sums()
    ensures { TotalsStaySums }
{}

/// Setting a credit in money changes nothing else.
pub fn money_credit_is_set()
    ensures { MoneyCreditIsSet }
{}

/// Setting a credit in an asset changes nothing else.
pub fn unit_credit_is_set()
    ensures { UnitCreditIsSet }
{}

/// Balances stay lawful when an accepted credit is set.
pub fn credits_keep_law()
    ensures { CreditsKeepLaw }
{}

/// No balance is below minus its account's credit; without credit none is negative.
pub fn no_balance_is_below_its_credit()
    ensures { NoBalanceIsBelowItsCredit }
{}

/// No account holds more than all accounts together and the most that they may owe: 2^88 grains, and 2^56 units of an asset.
pub fn sums_bound_balances()
    ensures { SumsBoundBalances }
{}

/// If all accounts together hold at most 2^123 grains, and 2^61 units of an asset, more than the
/// totals, each deposit and withdrawal that is accepted fits.
pub fn changes_fit_near_sums()
    ensures { ChangesFitNearSums }
{}

/// If the totals are the sums over all accounts, each deposit and withdrawal that is accepted
/// fits.
pub fn changes_fit_at_sums()
    ensures { ChangesFitAtSums }
{}
