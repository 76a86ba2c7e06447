ghost use Rattle.std.specs.Prelude.{◌≤◌, length, IfOk};

use crate::{
    ItemError, LinkIn, LinkOut, MemoryLink, Piece, PieceIn, PieceOut, RingLink, rejoin_pieces,
};
use std::alloc::Global;
use std::test::Fail;
use svc_value::Bytes;

// Items through both piece ends of one ring. Both may move to a thread of their own.
fn ends(alloc: Global) -> Result<(PieceOut, PieceIn), Fail> {
    let (out, into) = RingLink::new(alloc)?.split();
    Ok((sent(PieceOut::new(out)), sent(PieceIn::new(alloc, into))))
}

fn sent<T: Send>(end: T) -> T {
    end
}

// An item of `len` bytes, at most 585.
fn item(alloc: Global, byte: u8, len: usize) -> Result<Bytes, Fail>
    ensures { IfOk result (λ item. length item ≤ 585) }
{
    let bytes = [byte; 585];
    Ok(Bytes::from_slice(alloc, &bytes[..len.min(585)])?)
}

#[test]
fn a_memory_link_is_a_list(rt: HostRuntime) -> Result<(), Fail> {
    let alloc = rt.alloc();
    let mut link = MemoryLink::new(alloc);
    assert!(rt; link.front().is_none());
    link.reserve(2)?;
    assert!(rt; link.push(item(alloc, 1, 3)?).is_ok());
    assert!(rt; link.push(item(alloc, 2, 1)?).is_ok());
    assert_eq!(rt; link.front().ok_or("none")?, [1u8, 1, 1].as_slice());
    assert_eq!(rt;
        link.pop().ok_or("none")?.as_slice(),
        [1u8, 1, 1].as_slice()
    );
    assert_eq!(rt; link.pop().ok_or("none")?.as_slice(), [2u8].as_slice());
    assert!(rt; link.pop().is_none());
    Ok(())
}

#[test]
fn pieces_go_through_a_ring(rt: HostRuntime) -> Result<(), Fail> {
    let (mut out, mut into) = RingLink::new(rt.alloc())?.split();
    for byte in [7u8, 8, 9] {
        assert!(rt; out.push(Piece::cut(&[byte])).is_ok());
    }
    for byte in [7u8, 8, 9] {
        assert_eq!(rt; into.pop().ok_or("none")?.as_slice(), [byte].as_slice());
    }
    assert!(rt; into.pop().is_none());
    for _ in 0..32 {
        assert!(rt; out.push(Piece::cut(&[1])).is_ok());
    }
    assert_eq!(rt;
        out.push(Piece::cut(&[2])).err().ok_or("taken")?.as_slice(),
        [2u8].as_slice()
    );
    Ok(())
}

// Pushes items of this length until one comes back, and takes as many; the answer is how many went through.
fn pushed_until_full(alloc: Global, len: usize) -> Result<usize, Fail> {
    let (mut out, mut into) = ends(alloc)?;
    let mut pushed = 0;
    for _ in 0..40 {
        if out.push(item(alloc, 9, len)?).is_err() {
            break;
        }
        pushed = usize::saturating_add(pushed, 1);
    }
    let mut taken = 0;
    for _ in 0..40 {
        let Some(found) = into.pop_item()? else {
            out.flush();
            continue;
        };
        if found.as_slice() == item(alloc, 9, len)?.as_slice() {
            taken = usize::saturating_add(taken, 1);
        }
    }
    if taken != pushed {
        return Err("items were lost".into());
    }
    Ok(pushed)
}

#[test]
fn items_of_every_length_go_through(rt: HostRuntime) -> Result<(), Fail> {
    let alloc = rt.alloc();
    // An item of n bytes makes a piece for each 64 of its n + 2; one item more is taken, whose rest is kept.
    for (len, pushed) in [
        (0, 33),
        (1, 33),
        (62, 33),
        (63, 17),
        (64, 17),
        (65, 17),
        (521, 4),
        (585, 4),
    ] {
        assert_eq!(rt; pushed_until_full(alloc, len)?, pushed);
    }
    Ok(())
}

#[test]
fn ends_come_together(rt: HostRuntime) -> Result<(), Fail> {
    let alloc = rt.alloc();
    let (out, into) = RingLink::new(alloc)?.split();
    let mut out = PieceOut::new(out);
    let mut into = PieceIn::new(alloc, into);
    assert!(rt; out.push(item(alloc, 9, 585)?).is_ok());
    assert!(rt; out.push(item(alloc, 5, 1)?).is_ok());
    assert!(rt; out.push(item(alloc, 9, 585)?).is_ok());
    assert!(rt; out.push(item(alloc, 9, 585)?).is_ok());
    // One piece of this one fits.
    assert!(rt; out.push(item(alloc, 8, 585)?).is_ok());
    assert_eq!(rt; into.pop_item()?.ok_or("none")?.len(), 585);
    let rest = rejoin_pieces(alloc, out, into)?.into_vec();
    assert_eq!(rt; rest.len(), 4);
    assert_eq!(rt; rest[0].as_slice(), [5u8].as_slice());
    assert_eq!(rt; rest[3].as_slice(), item(alloc, 8, 585)?.as_slice());
    Ok(())
}

#[test]
fn a_length_that_no_item_has_is_refused(rt: HostRuntime) -> Result<(), Fail> {
    let alloc = rt.alloc();
    let (mut out, into) = RingLink::new(alloc)?.split();
    let mut into = PieceIn::new(alloc, into);
    // An item of one byte, and then a length of 586.
    assert!(rt; out.push(Piece::cut(&[0, 1, 7])).is_ok());
    assert!(rt; out.push(Piece::cut(&[2, 74])).is_ok());
    assert_eq!(rt;
        into.pop_item()?.ok_or("none")?.as_slice(),
        [7u8].as_slice()
    );
    assert!(rt; matches!(into.pop_item(), Err(ItemError::Length { at: 3 })));
    assert!(rt; matches!(into.pop_item(), Err(ItemError::Length { at: 3 })));
    Ok(())
}
