//! What holds of envelopes. Each law is the contract of a function that does nothing.
ghost use Rattle.envelope_text.specs.Laws.{OneEnvelope};

/// A line is one envelope at most.
pub fn one_envelope()
    ensures { OneEnvelope }
{}
