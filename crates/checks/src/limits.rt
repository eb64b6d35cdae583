// Limits of the format: orders, strikes, letters, line ends, and long inputs.
use crate::prints::grid_prints;
use claims::check;
use delivery::over_list;
use std::test::Fail;
use workspace::Workspace;

// Whether an input of that many digits over a grid is answered so.
fn long_input(rt: &impl AllocGlobal, digits: usize, expected: &[u8]) -> Result<(), Fail> {
    let input = vec![in rt.alloc(); b'0'; digits]?;
    grid_prints(rt, &mut [0u64; 4], &input, expected)
}

#[test]
fn two_hundred(rt: HostRuntime) -> Result<(), Fail> {
    let mut words = vec![in rt.alloc(); 0u64; 804]?;
    grid_prints(
        &rt,
        &mut words,
        b"01C9\n01C8\n02C7C6\n02C8C7\n",
        b"FF010300010000\n81\n82\nFF030300040000\n",
    )
}

#[test]
fn seventeenth_strike(rt: HostRuntime) -> Result<(), Fail> {
    let mut out = Vec::new(rt.alloc());
    out.extend_from_slice(b"0112\n")?;
    for v in 1u8..18 {
        out.extend_from_slice(b"02")?;
        push_pair(&mut out, v)?;
        out.extend_from_slice(b"04")?;
        push_pair(&mut out, v)?;
    }
    let mut cells = [0u16; 20];
    let mut said = Vec::new(rt.alloc());
    let (_, written) = over_list(&mut cells, &mut Workspace::none(), &out, &mut said);
    written?;
    let answers = said.as_slice();
    check(answers.len() == 3 * 34 + 15)?;
    check(&answers[93..] == b"82\n84\n82\nFF090300230000\n".as_slice())
}

// The vertices 0 and v in hexadecimal, and a line end: digits by a table, as the format has them.
fn push_pair(out: &mut Vec<u8>, v: u8) -> Result<(), Fail> {
    let digits = b"0123456789abcdef";
    out.extend_from_slice(b"00")?;
    out.push(digits[v as usize / 16])?;
    out.push(digits[v as usize % 16])?;
    out.push(b'\n')?;
    Ok(())
}

#[test]
fn either_case_and_no_last_line_end(rt: HostRuntime) -> Result<(), Fail> {
    grid_prints(
        &rt,
        &mut [0u64; 64],
        b"010f\n020a0E\n020A0e",
        b"81\n82\nFF060300030000\n",
    )
}

#[test]
fn nothing(rt: HostRuntime) -> Result<(), Fail> {
    grid_prints(&rt, &mut [0u64; 4], b"", b"")
}

#[test]
fn longest(rt: HostRuntime) -> Result<(), Fail> {
    long_input(&rt, 32768, b"FF0D0200010000\n")
}

#[test]
fn too_long(rt: HostRuntime) -> Result<(), Fail> {
    long_input(&rt, 32769, b"FF020300000000\n")
}
