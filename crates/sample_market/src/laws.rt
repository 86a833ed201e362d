//! Laws of samples, whatever code makes them. Each law is the contract of a function that does nothing.
ghost use Rattle.sample_market.specs.Laws.{SamplesAreLawful, SamplesAreRead, SamplesAreShort};

/// Each command of a sample is one of version One, its fields are in their ranges, and it fits a command record.
pub fn samples_are_lawful()
    ensures { SamplesAreLawful }
{}

/// The file of a sample is read to its end as the records of its commands.
pub fn samples_are_read()
    ensures { SamplesAreRead }
{}

/// The file of a sample has at most 11,284 bytes, and 56 for each order.
pub fn samples_are_short()
    ensures { SamplesAreShort }
{}
