// Each refusal that a frame can meet, alone and among others.
use crate::prints::{grid_prints, list_prints};
use std::test::Fail;

#[test]
fn bad_order(rt: HostRuntime) -> Result<(), Fail> {
    grid_prints(
        &rt,
        &mut [7u64; 12],
        b"0100\n0103\n0100\n",
        b"FF010300010000\n81\nFF010300030000\n",
    )
}

#[test]
fn eleven_words_for_three(rt: HostRuntime) -> Result<(), Fail> {
    grid_prints(
        &rt,
        &mut [7u64; 11],
        b"0103\n0102\n",
        b"FF020300010000\n81\n",
    )
}

#[test]
fn vertices(rt: HostRuntime) -> Result<(), Fail> {
    grid_prints(
        &rt,
        &mut [7u64; 12],
        b"0103\n020003\n020101\n",
        b"81\nFF030300020000\nFF040300030000\n",
    )
}

#[test]
fn struck(rt: HostRuntime) -> Result<(), Fail> {
    list_prints(
        &rt,
        &mut [7u16; 4],
        b"0103\n020001\n040001\n030001\n",
        b"81\n82\n84\nFF050300040000\n",
    )
}

#[test]
fn joined(rt: HostRuntime) -> Result<(), Fail> {
    list_prints(
        &rt,
        &mut [7u16; 4],
        b"0103\n020001\n020100\n030002\n",
        b"81\n82\nFF060300030000\nFF070300040000\n",
    )
}

#[test]
fn not_struck(rt: HostRuntime) -> Result<(), Fail> {
    grid_prints(
        &rt,
        &mut [7u64; 12],
        b"0103\n020001\n050001\n",
        b"81\n82\nFF080300030000\n",
    )
}

#[test]
fn one_cell(rt: HostRuntime) -> Result<(), Fail> {
    list_prints(
        &rt,
        &mut [7u16; 1],
        b"0103\n020001\n020102\n030001\n020102\n",
        b"81\n82\nFF090300030000\n83\n82\n",
    )
}

#[test]
fn no_cell(rt: HostRuntime) -> Result<(), Fail> {
    list_prints(
        &rt,
        &mut [7u16; 0],
        b"0103\n020001\n",
        b"81\nFF090300020000\n",
    )
}

#[test]
fn digits(rt: HostRuntime) -> Result<(), Fail> {
    grid_prints(
        &rt,
        &mut [7u64; 12],
        b"0G\n010\n0103\r\n",
        b"FF0C0100010002\nFF0C0100020003\nFF0C0100030005\n",
    )
}

#[test]
fn frames(rt: HostRuntime) -> Result<(), Fail> {
    grid_prints(
        &rt,
        &mut [7u64; 12],
        b"0A\n\n01\n06\n",
        b"FF0D0200010000\nFF0D0200020000\nFF0D0200030000\nFF0D0200040000\n",
    )
}

#[test]
fn turns(rt: HostRuntime) -> Result<(), Fail> {
    grid_prints(
        &rt,
        &mut [7u64; 12],
        b"020101\n0103\n0103\n",
        b"FF0E0300010000\n81\nFF0E0300030000\n",
    )
}
