// What the tests share.
use base::Fault;
use packet::read;
use std::alloc::{AllocError, Global};
use std::process::Abort;
use std::test::Fail;
use ticket::Ticket;

// Words laid out as bytes, high byte first.
pub(crate) fn laid_out(alloc: Global, words: &[u32]) -> Result<Vec<u8>, AllocError> {
    words
        .iter()
        .flat_map(|word| word.to_be_bytes())
        .collect(alloc)
}

// A packet and what is told of it: its words, cut or filled with zeros to a length, and the number and the place of its
// fault, or nothing where it is read.
pub(crate) type Case<'a> = (&'a str, &'a [u32], usize, Option<(u32, usize)>);

// Each packet is told of as its case says.
pub(crate) fn check<T: Ticket>(
    rt: &(impl Abort + AllocGlobal),
    quorums: u32,
    cases: &[Case<'_>],
) -> Result<(), Fail> {
    for (name, words, length, told) in cases {
        let mut bytes = laid_out(rt.alloc(), words)?;
        bytes.resize(*length, 0)?;
        let fault = read::<T>(&bytes, quorums).err();
        let code = fault.map(|fault| fault.code());
        assert_eq!(rt; code.map(|code| (code.number, code.place)), *told, "{name}");
    }
    Ok(())
}
