// Compares lists of packets.
use packet_record::Timed;

// Returns whether two lists have the same packets, at the same moments.
pub(crate) fn are_same(these: &[Timed], those: &[Timed]) -> bool {
    these == those
}
