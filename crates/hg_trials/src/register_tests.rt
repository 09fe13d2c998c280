use hg_core::Register;
use std::alloc::Global;
use std::test::Fail;

// A word, its register, and the word of that again. Each can be added up by hand: the number times 2^20, 8 where moved, 4 where
// declared, the tag.
const WORDS: &str = "\
0x0 = Idle = 0x0
0x1 = Entering(0) = 0x1
0x500001 = Entering(5) = 0x500001
0x2 = Live { number: 0, declared: false, moved: false } = 0x2
0x300002 = Live { number: 3, declared: false, moved: false } = 0x300002
0x300006 = Live { number: 3, declared: true, moved: false } = 0x300006
0x30000e = Live { number: 3, declared: true, moved: true } = 0x30000e
0xfffffffffff00002 = Live { number: 17592186044415, declared: false, moved: false } = 0xfffffffffff00002
0xfffffffffff0000e = Live { number: 17592186044415, declared: true, moved: true } = 0xfffffffffff0000e
";

// Where memory runs out the text is cut short, and isn't the one that is wanted.
fn registers_told(alloc: Global) -> String {
    let mut told = String::new(alloc);
    for word in [
        0,
        1,
        0x50_0001,
        2,
        0x30_0002,
        0x30_0006,
        0x30_000e,
        0xffff_ffff_fff0_0002,
        0xffff_ffff_fff0_000e,
    ] {
        let register = Register::from_word(word);
        let again = register.word();
        let _ = write!(told, "{word:#x} = {register:?} = {again:#x}\n");
    }
    told
}

#[test]
fn words_of_registers(rt: HostRuntime) -> Result<(), Fail> {
    assert_eq!(rt; registers_told(rt.alloc()).as_str(), WORDS);
    Ok(())
}
