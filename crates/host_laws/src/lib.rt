//! Laws of a file that `host` keeps, and of its output: the bytes of FILE and of the input determine how a call ends, what it writes, also before a
//! failure, and which entries it keeps.
//!
//! Each law is the contract of a function that does nothing. No code depends on them.
#![tactic(auto)]

ghost use Rattle.host_laws.specs.Laws.{OneHostedOutput, HostedBegunIsAPrefix, OneHostStatus, HostBegunIsAPrefix};

use desk_lines::laws::{one_hearing, one_wish};
use desk_opening::laws::one_beginning;
use disk_edge::Disk;

/// The bytes of a file and of an input lead to one result and one output of hosting lines, unless it fails; for any states of two disks.
pub fn one_hosted_output<D: Disk>(_start: &D, _end: &D, _other: &D, _last: &D)
    ensures { OneHostedOutput (D.state _start.now) (D.state _end.now) (D.state _other.now) (D.state _last.now) }
{
    one_hearing();
    one_wish();
    one_beginning();
}

/// What hosting lines wrote before a failure is a prefix of what it writes of the same bytes of a file and of an input if it doesn't fail.
pub fn hosted_begun_is_a_prefix<D: Disk>(_start: &D, _end: &D, _other: &D, _last: &D)
    ensures { HostedBegunIsAPrefix (D.state _start.now) (D.state _end.now) (D.state _other.now) (D.state _last.now) }
{
    one_hearing();
    one_wish();
    one_beginning();
}

/// The bytes of FILE and of the input lead `host` to one status and one output, unless it fails; for any states of two disks.
pub fn one_host_status<D: Disk>(_start: &D, _end: &D, _other: &D, _last: &D)
    ensures { OneHostStatus (D.state _start.now) (D.state _end.now) (D.state _other.now) (D.state _last.now) }
{
    one_hosted_output(_start, _end, _other, _last);
}

/// What `host` wrote before a failure is a prefix of what it writes of the same bytes of FILE and of the input if it doesn't fail.
pub fn host_begun_is_a_prefix<D: Disk>(_start: &D, _end: &D, _other: &D, _last: &D)
    ensures { HostBegunIsAPrefix (D.state _start.now) (D.state _end.now) (D.state _other.now) (D.state _last.now) }
{
    hosted_begun_is_a_prefix(_start, _end, _other, _last);
}
