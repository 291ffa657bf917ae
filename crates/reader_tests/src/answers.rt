// What a text is expected to answer.
use reader::examine;
use std::process::Abort;

// The numbers of nodes and of product signs, or the number and the place of the refusal.
fn answer(text: &[u8]) -> Result<(usize, usize), (u8, usize)> {
    examine(text).map_err(|fault| (fault.number(), fault.place()))
}

pub(super) fn accepted(rt: &impl Abort, text: &[u8], nodes: usize, products: usize) {
    assert_eq!(rt; answer(text), Ok((nodes, products)), "{text:?}");
}

pub(super) fn refused(rt: &impl Abort, text: &[u8], number: u8, place: usize) {
    assert_eq!(rt; answer(text), Err((number, place)), "{text:?}");
}
