// Lines on lent areas, of which nothing but their length is known.
ghost use Rattle.std.specs.Prelude.{◌≡◌, ◌≤◌, length, take};
ghost use Rattle.listing.specs.declared.sizes.TheConstants.{LINE_BYTES};
ghost use Rattle.listing.specs.Listing.{count_line};

use crate::lent::Lent;
use crate::line::Line;
use crate::lines::{listing_line, put_count};

// The line of the node count, in front of an area, and how many bytes it is.
fn count_in_front(area: &mut [u8], n: usize) -> usize
    requires { LINE_BYTES ≤ length area.old }
    ensures front { take result area.new ≡ count_line n }
    ensures count { result ≡ length (count_line n) }
{
    let mut line = Lent::new(area);
    put_count(&mut line, n);
    line.len
}

#[test]
fn a_lent_area_keeps_its_line(rt: HostRuntime) {
    let mut area = [b'.'; 130];
    let n = count_in_front(&mut area[1..], 1024);
    assert_eq!(rt; n, 11);
    assert_eq!(rt; &area[..13], b".nodes 1024\n.".as_slice());
}

#[test]
fn a_lent_area_is_written_anew(rt: HostRuntime) {
    let mut area = [b'.'; 130];
    let mut line = Lent::new(&mut area);
    line.push(b'a');
    line.extend(b"bc");
    assert_eq!(rt; line.as_slice(), b"abc".as_slice());
    listing_line(&mut line, b"", &[], &[], &[], 0);
    assert_eq!(rt; line.as_slice(), b"nodes 0\n".as_slice());
    listing_line(&mut line, b"", &[], &[], &[], 1);
    assert_eq!(rt; line.as_slice(), b"S\n".as_slice());
}
