use crate::mountinfo::{Field, MountPoint, Parser, RowFault, parse_mount_point};
use crate::texts::Shown;
use std::alloc::{AllocError, Global};
use std::test::Fail;

// A field as text: `b` where it is borrowed, `o` where it is owned.
fn describe_field(out: &mut String, field: &Field<'_>) -> Result<(), AllocError> {
    match field {
        Field::Borrowed(bytes) => write!(out, " b<{}>", Shown(bytes)),
        Field::Owned(bytes) => write!(out, " o<{}>", Shown(bytes)),
    }
}

fn describe_mount(out: &mut String, mount: &MountPoint<'_>) -> Result<(), AllocError> {
    let flags = mount.get_flags();
    write!(
        out,
        "{} {} {}:{}",
        mount.mount_id, mount.parent_id, mount.major, mount.minor
    )?;
    describe_field(out, &mount.root)?;
    describe_field(out, &mount.mount_point)?;
    describe_field(out, &mount.mount_options)?;
    describe_field(out, &mount.optional_fields)?;
    describe_field(out, &mount.fstype)?;
    describe_field(out, &mount.mount_source)?;
    describe_field(out, &mount.super_options)?;
    write!(out, " {flags};")
}

// The items of a table as text.
fn describe(alloc: Global, text: &[u8]) -> Result<String, AllocError> {
    let mut out = String::new(alloc);
    for item in Parser::new(alloc, text) {
        match item {
            Ok(mount) => describe_mount(&mut out, &mount)?,
            Err(error) => write!(out, "{error};")?,
        }
    }
    Ok(out)
}

#[test]
fn rows_are_read_as_proc_shows_them(rt: HostRuntime) -> Result<(), Fail> {
    let cases: [(&[u8], &str); 31] = [
        (
            b"76 24 8:6 / /home/my\\040super\\011name\\012\\134 rw,relatime shared:29 - ext4 /dev/sda1 rw,data=ordered",
            "76 24 8:6 b</> o</home/my super\tname\n\\> b<rw,relatime> b<shared:29> b<ext4> b</dev/sda1> b<rw,data=ordered> 2097152;",
        ),
        (
            b"19 24 0:4 / /proc\\400 rw - proc proc rw\n",
            "19 24 0:4 b</> o</proc\0> b<rw> b<> b<proc> b<proc> b<rw> 0;",
        ),
        (
            b"19 24 0:4 / /proc rw,relatime shared:12 - proc proc",
            "Parse error at line 0: Expected more fields\n19 24 0:4 / /proc rw,relatime shared:12 - proc proc;",
        ),
        (
            b"19 24b 0:4 / /proc rw,relatime - proc proc rw\n",
            "Parse error at line 1: Cannot parse integer \"24b\": invalid digit\n19 24b 0:4 / /proc rw,relatime - proc proc rw;",
        ),
        (
            b"+19 24 0:4 / /p rw - t s rw",
            "19 24 0:4 b</> b</p> b<rw> b<> b<t> b<s> b<rw> 0;",
        ),
        (
            b"\n  \n",
            "Parse error at line 2: Cannot parse integer \"\": empty\n  ;",
        ),
        (b"", ""),
        (b"\n\r\n\n\r", ""),
        (
            b"# Test\n\t # More\n19 24 0:4 / /#proc rw - proc proc rw",
            "19 24 0:4 b</> b</#proc> b<rw> b<> b<proc> b<proc> b<rw> 0;",
        ),
        (
            b"335 294 0:56 / /proc rw,relatime shared:12 master:1 - proc proc rw",
            "335 294 0:56 b</> b</proc> b<rw,relatime> b<shared:12 master:1> b<proc> b<proc> b<rw> 2097152;",
        ),
        (
            b"335 294 0:56 / /proc rw,relatime - proc proc rw",
            "335 294 0:56 b</> b</proc> b<rw,relatime> b<> b<proc> b<proc> b<rw> 2097152;",
        ),
        (
            b"1 2 0:4 / /\xff rw - t s rw",
            "1 2 0:4 b</> b</\\xFF> b<rw> b<> b<t> b<s> b<rw> 0;",
        ),
        (
            b"1 2 0:4 / /p rw - t s rw\r\n3 4 0:5 / /q ro - t s rw\r",
            "1 2 0:4 b</> b</p> b<rw> b<> b<t> b<s> b<rw> 0;3 4 0:5 b</> b</q> b<ro> b<> b<t> b<s> b<rw> 1;",
        ),
        (
            b"1 2 0:4 / /proc\\1 rw - t s rw",
            "1 2 0:4 b</> b</proc\\1> b<rw> b<> b<t> b<s> b<rw> 0;",
        ),
        (
            b"111111111111111111111",
            "Parse error at line 0: Cannot parse integer \"111111111111111111111\": number too large\n111111111111111111111;",
        ),
        (
            b"1 2 :4 / /p rw - t s rw",
            "Parse error at line 0: Expected more fields\n1 2 :4 / /p rw - t s rw;",
        ),
        (
            b"1 2 8:  \nbad",
            "Parse error at line 1: Expected more fields\n1 2 8:  ;Parse error at line 1: Cannot parse integer \"bad\": invalid digit\nbad;",
        ),
        (
            b"1 2 x",
            "Parse error at line 0: Cannot parse integer \"x\": invalid digit\n1 2 x;",
        ),
        (
            b"+ 2 8:6",
            "Parse error at line 0: Cannot parse integer \"+\": invalid digit\n+ 2 8:6;",
        ),
        (
            b"++1 2 8:6",
            "Parse error at line 0: Cannot parse integer \"++1\": invalid digit\n++1 2 8:6;",
        ),
        (
            b"18446744073709551615 2 0:4 / /p rw - t s rw",
            "18446744073709551615 2 0:4 b</> b</p> b<rw> b<> b<t> b<s> b<rw> 0;",
        ),
        (
            b"18446744073709551616",
            "Parse error at line 0: Cannot parse integer \"18446744073709551616\": number too large\n18446744073709551616;",
        ),
        (
            b"18446744073709551615x",
            "Parse error at line 0: Cannot parse integer \"18446744073709551615x\": invalid digit\n18446744073709551615x;",
        ),
        (
            b"99999999999999999999x",
            "Parse error at line 0: Cannot parse integer \"99999999999999999999x\": number too large\n99999999999999999999x;",
        ),
        (
            b"  1   2  8 7: 6 5 /  /p  rw  shared:1  -  t  s  rw  more",
            "1 2 8:6 b<5> b</> b</p> b<rw  shared:1> b<t> b<s> b<rw> 0;",
        ),
        (
            b"1 2 0:4 / /a- rw - t s rw",
            "1 2 0:4 b</> b</a-> b<rw> b<> b<t> b<s> b<rw> 0;",
        ),
        (
            b"1 2 0:4 / /p rw shared:1- - t s rw",
            "1 2 0:4 b</> b</p> b<rw> b<shared:1> b<-> b<t> b<s> 0;",
        ),
        (
            b"1 2 0:4 / /p rw x\\040y - t\\040 \\163 \\162\\167",
            "1 2 0:4 b</> b</p> b<rw> o<x y> o<t > o<s> o<rw> 0;",
        ),
        (
            b"1 2 0:4 / /\\\\040\\08 rw - t s rw",
            "1 2 0:4 b</> o</\\ \\08> b<rw> b<> b<t> b<s> b<rw> 0;",
        ),
        (
            b"1 2 0:4 / /p ro,nosuid,nodev,noexec,mand,sync,dirsync,noatime,nodiratime,relatime,strictatime,,RO - t s ro",
            "1 2 0:4 b</> b</p> b<ro,nosuid,nodev,noexec,mand,sync,dirsync,noatime,nodiratime,relatime,strictatime,,RO> b<> b<t> b<s> b<ro> 18877663;",
        ),
        (b"\t\t#", ""),
    ];
    for (text, want) in cases {
        let got = describe(rt.alloc(), text)?;
        assert_eq!(rt; got.as_str(), want);
    }
    Ok(())
}

// What one line says, as text: its mount flags, or its refusal.
fn describe_line(alloc: Global, line: &[u8]) -> Result<String, AllocError> {
    match parse_mount_point(alloc, line) {
        Ok(Some(mount)) => format!(in alloc; "{}", mount.get_mount_flags().bits()),
        Ok(None) => format!(in alloc; "passed over"),
        Err(RowFault::Row(error)) => format!(in alloc; "{error}"),
        Err(RowFault::NoMemory) => format!(in alloc; "out of memory"),
    }
}

#[test]
fn a_line_alone_is_read(rt: HostRuntime) -> Result<(), Fail> {
    let cases: [(&[u8], &str); 3] = [
        (b"1 2 0:4 / /p ro,noexec - t s rw\r", "9"),
        (b" # Test", "passed over"),
        (
            b"1 \xff",
            "Parse error: Cannot parse integer \"\\xFF\": invalid digit",
        ),
    ];
    for (line, want) in cases {
        let got = describe_line(rt.alloc(), line)?;
        assert_eq!(rt; got.as_str(), want);
    }
    Ok(())
}
