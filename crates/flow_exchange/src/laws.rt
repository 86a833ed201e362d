//! Laws of the program's arguments and outcomes, whatever code there is, on which its own promise rests. Each law is the contract
//! of a function that does nothing. The other laws are in the crate `flow_laws`.
ghost use Rattle.flow_exchange.specs.Laws.{OneForm, OneEnd, OneIfMore, FaultlessIsDetermined};

/// Arguments ask for at most one form.
pub fn one_form()
    ensures { OneForm }
{}

/// For each form the bytes of the source have at most one status and one text of the output.
pub fn one_end()
    ensures { OneEnd }
{}

/// Bytes result in at most one text if more follow. So after a failed read the output is exactly what the bytes that were taken make,
/// but for `encode` and `resume`, which then have written nothing.
pub fn one_if_more()
    ensures { OneIfMore }
{}

/// If no fault came and memory didn't run out, the bytes of the source determine the status and what was written.
pub fn faultless_is_determined()
    ensures { FaultlessIsDetermined }
{}
