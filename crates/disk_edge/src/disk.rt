ghost use Rattle.std.specs.Prelude.{◌≡◌, ◌≤◌, ◌+◌, ◌^◌, length, take, drop, IfSome};
ghost use Rattle.disk_edge.specs.Disks.{DiskState, IsDisk, OnlyTells, ChangesBy};
ghost use Rattle.disk_edge.specs.Images.{written, TornWrite, TornCut, AddsNoLonger, LeavesOnly};

/// A call of a disk failed, and its count of faults rose.
#[derive(Clone, Copy, Debug, PartialEq, Eq)]
pub struct DiskFailed;

/// A file that is read and written at places, cut, and synced. Places and lengths are in bytes. Each call fails only if
/// the count of faults rose, and leaves the count as it was if it succeeds.
pub trait Disk {
    // What contracts see of a disk: its content if it is known, faults, a clock, and what a crash may leave.
    ghost state: { Self → DiskState };

    /// Returns how many bytes the disk has. Changes nothing, even if it fails.
    fn length(&mut self) -> Result<u64, DiskFailed>
        ensures { OnlyTells result (λ count bytes. count ≡ length bytes) (state self.old) (state self.new) };

    /// Fills `into` with the bytes at a place, all of which are inside. Changes nothing, even if it fails; `into` may
    /// then hold anything.
    fn read_at(&mut self, place: u64, into: &mut [u8]) -> Result<(), DiskFailed>
        requires { IfSome (state self.old).content (λ bytes. place + length into.old ≤ length bytes) }
        ensures { OnlyTells result (λ _ bytes. into.new ≡ take (length into.old) (drop place bytes)) (state self.old) (state self.new) };

    /// Writes bytes at a place inside or at the end, over those that are there and past the end, up to 2^62 at most.
    /// Until a sync succeeds a crash may leave any bytes in their range. A write that fails counts as made and not
    /// synced: the content is then one of the images.
    fn write_at(&mut self, place: u64, bytes: &[u8]) -> Result<(), DiskFailed>
        requires { IfSome (state self.old).content
            (λ held. (place ≤ length held) × (place + length bytes.now ≤ 2 ^ 62)) }
        ensures { ChangesBy result (written place bytes.now) (TornWrite place (length bytes.now)) (state self.old) (state self.new) };

    /// Removes what is past a length, which isn't above the disk's own. Until a sync succeeds a crash may leave some of
    /// it. A cut that fails counts as made and not synced: the content is then one of the images.
    fn cut(&mut self, to: u64) -> Result<(), DiskFailed>
        requires { IfSome (state self.old).content (λ bytes. to ≤ length bytes) }
        ensures changes { ChangesBy result (take to) (TornCut to) (state self.old) (state self.new) }
        ensures no_longer { AddsNoLonger (state self.old).images (state self.new).images };

    /// Makes what was written and cut outlast a crash: at Ok a crash leaves what a read gives, and nothing else.
    /// Changes no content, even if it fails.
    fn sync(&mut self) -> Result<(), DiskFailed>
        ensures { OnlyTells result (λ _. LeavesOnly (state self.new).images) (state self.old) (state self.new) };

    // What holds of a disk at any moment.
    ghost is_disk: { (disk : Self) → IsDisk (state disk) };
}
