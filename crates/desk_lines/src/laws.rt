//! What holds of lines of many senders. Each law is the contract of a function that does nothing.
ghost use Rattle.desk_lines.specs.Laws.{OneHearing, SomeHearing, OneWish, SomeWish};

/// A line is heard in one way.
pub fn one_hearing()
    ensures { OneHearing }
{}

/// No line is heard in no way.
pub fn some_hearing()
    ensures { SomeHearing }
{}

/// A text of a sender asks for one thing.
pub fn one_wish()
    ensures { OneWish }
{}

/// No text of a sender is without what it asks for.
pub fn some_wish()
    ensures { SomeWish }
{}
