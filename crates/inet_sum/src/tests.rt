// Values from outside: the example of RFC 1071, section 3, headers in use, and a UDP datagram.
use crate::{checksum, checksum_parts, ones_sum};

#[test]
fn sums_the_words_of_rfc_1071(rt: HostRuntime) {
    assert!(rt; ones_sum(&[0x00, 0x01, 0xf2, 0x03, 0xf4, 0xf5, 0xf6, 0xf7]) == 0xddf2);
    assert!(rt; ones_sum(&[]) == 0);
    assert!(rt; ones_sum(&[0xab]) == 0xab00);
}

#[test]
fn a_header_with_its_checksum_sums_to_ffff(rt: HostRuntime) {
    let header = [
        0x45, 0x00, 0x00, 0x73, 0x00, 0x00, 0x40, 0x00, 0x40, 0x11, 0xb8, 0x61, 0xc0, 0xa8, 0x00,
        0x01, 0xc0, 0xa8, 0x00, 0xc7,
    ];
    assert!(rt; ones_sum(&header) == 0xffff);
    assert!(rt; checksum(&header) == 0);
}

#[test]
fn a_datagram_is_summed_behind_its_pseudo_header(rt: HostRuntime) {
    let pseudo_header = [10, 1, 0, 4, 198, 51, 100, 7, 0, 17, 0, 9];
    let datagram = [0x13, 0x88, 0x00, 0x35, 0x00, 0x09, 0x00, 0x00, 0x68];
    assert!(rt; checksum_parts(&pseudo_header, &datagram) == 0x4fdf);
}

#[test]
fn more_than_a_block_is_summed(rt: HostRuntime) {
    let bytes = [0xff; 70001];
    assert!(rt; ones_sum(&bytes) == 0xff00);
    let zeros = [0; 70001];
    assert!(rt; ones_sum(&zeros) == 0);
}
