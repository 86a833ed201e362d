//! What holds of keeping a journal and of serving lines, whatever the code. Each law is the contract of a function that does nothing.
ghost use Rattle.kept_exchange.specs.Laws.{OneStatus, SomeStatus, LinesHaveOneStatus, LinesHaveSomeStatus, KeepFollows, LinesFollow, KeepEndsByResult, LinesEndByResult};

use disk_edge::Disk;

/// The bytes of a disk and of a source lead to at most one status: the cases exclude one another.
pub fn one_status()
    ensures { OneStatus }
{}

/// The bytes of a disk and of a source lead to some status, whatever they are. Stated as not denied.
pub fn some_status()
    ensures { SomeStatus }
{}

/// The bytes of a disk and of an input of lines lead to at most one status: the cases exclude one another.
pub fn lines_have_one_status()
    ensures { LinesHaveOneStatus }
{}

/// The bytes of a disk and of an input of lines lead to some status, whatever they are. Stated as not denied.
pub fn lines_have_some_status()
    ensures { LinesHaveSomeStatus }
{}

/// What a crash leaves of a disk on which a call may begin that keeps a journal is such a disk again, such a disk isn't refused, and the bytes of the disk and
/// of the source determine the status, if no call failed and memory was there; for any two states of a disk.
pub fn keep_follows<D: Disk>(_start: &D, _end: &D)
    ensures { KeepFollows (D.state _start.now) (D.state _end.now) }
{}

/// The same follows of each call that serves lines; for any two states of a disk.
pub fn lines_follow<D: Disk>(_start: &D, _end: &D)
    ensures { LinesFollow (D.state _start.now) (D.state _end.now) }
{}

/// What holds by the status of a call that keeps a journal, how far it reads and when memory runs out are what the results with that status lead
/// to; for any state of a disk.
pub fn keep_ends_by_result<D: Disk>(_end: &D)
    ensures { KeepEndsByResult (D.state _end.now) }
{}

/// What holds by the status of a call that serves lines is what the results with that status lead to; for any state of a disk.
pub fn lines_end_by_result<D: Disk>(_end: &D)
    ensures { LinesEndByResult (D.state _end.now) }
{}
