//! Laws of the encodings of numbers. A function here does nothing when it runs: its `ensures` is the law.
ghost use Rattle.wire_fields.specs.Laws.{UnsignedLength, SignedLength, UnsignedBytes, SignedBytes, UnsignedUnique, SignedUnique, UnsignedComplete, SignedComplete};

/// The encoding of an unsigned number has as many bytes as are asked for.
pub fn unsigned_length()
    ensures { UnsignedLength }
{}

/// The encoding of a signed number has as many bytes as are asked for.
pub fn signed_length()
    ensures { SignedLength }
{}

/// Each byte of the encoding of an unsigned number is below 256.
pub fn unsigned_bytes()
    ensures { UnsignedBytes }
{}

/// Each byte of the encoding of a signed number is below 256.
pub fn signed_bytes()
    ensures { SignedBytes }
{}

/// Bytes begin with the encoding of at most one unsigned number in range, whatever follows it.
pub fn unsigned_unique()
    ensures { UnsignedUnique }
{}

/// Bytes begin with the encoding of at most one signed number in range, whatever follows it.
pub fn signed_unique()
    ensures { SignedUnique }
{}

/// Any bytes encode an unsigned number in range.
pub fn unsigned_complete()
    ensures { UnsignedComplete }
{}

/// Any bytes, at least one, encode a signed number in range.
pub fn signed_complete()
    ensures { SignedComplete }
{}
