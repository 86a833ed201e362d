//! What holds of imbalances and verdicts, whatever the code. Each law is the contract of a function that does nothing.
ghost use Rattle.batch_certificate.specs.Laws.{SettledResidualsAreBounded, EachHasAVerdict, OneVerdict, RightIsForAdmissibleClearings};

/// If an asset is settled, its imbalance is at most its rounding bound and its slope bound together, however the demands are
/// rounded.
pub fn settled_residuals_are_bounded()
    ensures { SettledResidualsAreBounded }
{}

/// Every clearing of orders within the limits has a verdict.
pub fn each_has_a_verdict()
    ensures { EachHasAVerdict }
{}

/// A clearing has at most one verdict.
pub fn one_verdict()
    ensures { OneVerdict }
{}

/// The verdict on a clearing is `Right` exactly if the clearing is admissible.
pub fn right_is_for_admissible_clearings()
    ensures { RightIsForAdmissibleClearings }
{}
