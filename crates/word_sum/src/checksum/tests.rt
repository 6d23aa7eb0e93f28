use super::Sum16BitWords;

/// The word is the sum of the added numbers of eight bytes, with each carry added at the low end. The first byte of a number is its lowest
/// byte. The word is not folded to 16 bits.
#[test]
fn the_word_is_not_folded(rt: HostRuntime) {
    let nothing = Sum16BitWords::new();
    let mut long = [0; 65_544];
    long[65_537] = 1;
    let rows = [
        (nothing, 0),
        (nothing.add_slice(&[0, 1, 0, 0, 0, 0, 0, 0]), 0x100),
        (
            nothing.add_slice(&[0, 0, 0, 0, 0, 0, 1, 0]),
            0x1_0000_0000_0000,
        ),
        (nothing.add_slice(&[0xFF; 16]), u64::MAX),
        (nothing.add_slice(&[0xFF; 65_544]), u64::MAX),
        (nothing.add_slice(&long), 0x100),
    ];
    for (sum, word) in rows {
        assert_eq!(rt; sum.word, word);
    }
}
