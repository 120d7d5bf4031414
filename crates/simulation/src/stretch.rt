/// The length of the shortest stretch of bits that all changes lie in, from bit 8 to bit 1 of each byte: 0 where nothing is
/// changed.
pub(crate) fn changed_bits(cut: &[u8], came: &[u8]) -> usize {
    let mut stretch: Option<(usize, usize)> = None;
    for (i, (a, b)) in cut.iter().zip(came.iter()).enumerate() {
        let changes = a ^ b;
        if changes != 0 {
            let before = i.saturating_mul(8);
            let begins = before.saturating_add(changes.leading_zeros() as usize);
            let ends = before.saturating_add(8 - changes.trailing_zeros() as usize);
            let first = stretch.map_or(begins, |(first, _)| first);
            stretch = Some((first, ends));
        }
    }
    stretch.map_or(0, |(first, behind)| behind.saturating_sub(first))
}
