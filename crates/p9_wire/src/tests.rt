// Bytes and values that are known from outside.
use crate::data::{Data, MAX_DATA_LENGTH};
use crate::error::WireError;
use crate::format::WireFormat;
use crate::qid::Qid;
use crate::text::P9String;
use port_base::memory::{MemSink, SliceSource};
use std::alloc::Global;
use std::test::Fail;

fn read<T: WireFormat>(alloc: Global, bytes: &[u8]) -> Result<T, WireError> {
    let mut source = SliceSource::new(bytes);
    T::decode(alloc, &mut source)
}

fn written<T: WireFormat>(alloc: Global, value: &T) -> Result<MemSink, WireError> {
    let mut sink = MemSink::new(alloc);
    value.encode(&mut sink)?;
    Ok(sink)
}

const NUMBER: [u8; 8] = [0xef, 0xbe, 0xad, 0xde, 0x0d, 0xf0, 0xad, 0x8b];

#[test]
fn numbers_have_the_least_byte_first(rt: HostRuntime) -> Result<(), Fail> {
    let alloc = rt.alloc();
    assert_eq!(rt; read::<u8>(alloc, &NUMBER)?, 0xef);
    assert_eq!(rt; read::<u16>(alloc, &NUMBER)?, 0xbeef);
    assert_eq!(rt; read::<u32>(alloc, &NUMBER)?, 0xdead_beef);
    assert_eq!(rt; read::<u64>(alloc, &NUMBER)?, 0x8bad_f00d_dead_beef);
    assert_eq!(rt; written(alloc, &0xefu8)?.as_bytes(), &NUMBER[..1]);
    assert_eq!(rt; written(alloc, &0xbeefu16)?.as_bytes(), &NUMBER[..2]);
    assert_eq!(rt; written(alloc, &0xdead_beefu32)?.as_bytes(), &NUMBER[..4]);
    assert_eq!(rt;
        written(alloc, &0x8bad_f00d_dead_beefu64)?.as_bytes(),
        &NUMBER[..]
    );
    Ok(())
}

#[test]
fn texts_are_utf8_behind_their_length(rt: HostRuntime) -> Result<(), Fail> {
    let alloc = rt.alloc();
    let good: [(&str, &[u8]); 4] = [
        ("", b"\0\0"),
        ("a", b"\x01\0a"),
        ("Google Video", b"\x0c\0Google Video"),
        (
            "전체서비스",
            b"\x0f\0\xec\xa0\x84\xec\xb2\xb4\xec\x84\x9c\xeb\xb9\x84\xec\x8a\xa4",
        ),
    ];
    for (text, bytes) in good {
        let made = P9String::new(alloc, text.as_bytes())?;
        assert_eq!(rt; written(alloc, &made)?.as_bytes(), bytes, "{text}");
        let came = read::<P9String>(alloc, bytes)?;
        assert!(rt; came.eq_text(text), "{text}");
        assert!(rt;
            came == made.try_clone(alloc).map_err(|_| "no memory")?,
            "{text}"
        );
        assert_eq!(rt; came.len() + 2, bytes.len(), "{text}");
    }
    let bad: [(&[u8], WireError); 8] = [
        (b"\x05\0\xf8\x80\x80\x80\xbf", WireError::InvalidInput),
        (b"\x04\0\xf4\x90\x80\x80", WireError::InvalidInput),
        (b"\x04\0\xb0\xa1\xb0\xa2", WireError::InvalidInput),
        (b"\x04\0caf\xe9", WireError::InvalidInput),
        (b"\x06\0\xed\xa0\x80\xed\xbf\xbf", WireError::InvalidInput),
        (b"\x03\0a\0b", WireError::InvalidInput),
        (b"\x03\0ab", WireError::UnexpectedEof),
        (b"\x03", WireError::UnexpectedEof),
    ];
    for (bytes, want) in bad {
        assert_eq!(rt;
            read::<P9String>(alloc, bytes).err(),
            Some(want),
            "{bytes:?}"
        );
    }
    let long = vec![in alloc; 97u8; 65536]?;
    assert_eq!(rt;
        P9String::new(alloc, &long).err(),
        Some(WireError::InvalidInput)
    );
    Ok(())
}

#[test]
fn many_values_stand_behind_their_count(rt: HostRuntime) -> Result<(), Fail> {
    let alloc = rt.alloc();
    let numbers = vec![in alloc; 291u32, 18916]?;
    assert_eq!(rt;
        written(alloc, &numbers)?.as_bytes(),
        b"\x02\0\x23\x01\0\0\xe4\x49\0\0".as_slice()
    );
    let came = read::<Vec<u32>>(alloc, b"\x02\0\x23\x01\0\0\xe4\x49\0\0")?;
    assert_eq!(rt; came.as_slice(), numbers.as_slice());
    let many = vec![in alloc; 0u32; 65536]?;
    assert_eq!(rt; written(alloc, &many).err(), Some(WireError::InvalidInput));

    let data = Data(vec![in alloc; 169u8, 155, 79]?);
    assert_eq!(rt;
        written(alloc, &data)?.as_bytes(),
        b"\x03\0\0\0\xa9\x9b\x4f".as_slice()
    );
    let came = read::<Data>(alloc, b"\x03\0\0\0\xa9\x9b\x4f")?;
    assert!(rt; came == data.try_clone(alloc).map_err(|_| "no memory")?);
    assert_eq!(rt; came.len(), 3);
    assert_eq!(rt; format!(in alloc; "{came:?}")?.as_str(), "Data(3 bytes)");

    let qid = Qid {
        ty: 0x80,
        version: 1,
        path: 2,
    };
    assert_eq!(rt;
        written(alloc, &qid)?.as_bytes(),
        b"\x80\x01\0\0\0\x02\0\0\0\0\0\0\0".as_slice()
    );
    Ok(())
}

#[test]
fn values_follow_one_another(rt: HostRuntime) -> Result<(), Fail> {
    let alloc = rt.alloc();
    let number = 0xdead_10cc_00ba_b10cu64;
    let text = P9String::new(alloc, b"a")?;
    let numbers = vec![in alloc; 359u16]?;
    let data = Data(vec![in alloc; 254u8]?);
    let mut sink = MemSink::new(alloc);
    number.encode(&mut sink)?;
    text.encode(&mut sink)?;
    numbers.encode(&mut sink)?;
    data.encode(&mut sink)?;
    let bytes = b"\x0c\xb1\xba\0\xcc\x10\xad\xde\x01\0a\x01\0\x67\x01\x01\0\0\0\xfe";
    assert_eq!(rt; sink.as_bytes(), bytes.as_slice());
    let mut source = SliceSource::new(bytes);
    assert_eq!(rt; u64::decode(alloc, &mut source)?, number);
    assert!(rt; P9String::decode(alloc, &mut source)? == text);
    assert_eq!(rt;
        Vec::<u16>::decode(alloc, &mut source)?.as_slice(),
        numbers.as_slice()
    );
    assert!(rt; Data::decode(alloc, &mut source)? == data);
    assert!(rt; source.is_at_end());
    Ok(())
}

#[test]
fn data_has_a_longest_length(rt: HostRuntime) -> Result<(), Fail> {
    let alloc = rt.alloc();
    let table: [(u32, WireError); 2] = [
        (MAX_DATA_LENGTH, WireError::UnexpectedEof),
        (MAX_DATA_LENGTH + 1, WireError::InvalidData),
    ];
    for (length, want) in table {
        assert_eq!(rt;
            read::<Data>(alloc, &length.to_le_bytes()).err(),
            Some(want),
            "{length}"
        );
    }
    let long = Data(vec![in alloc; 7u8; 200000]?);
    let bytes = written(alloc, &long)?;
    assert!(rt; read::<Data>(alloc, bytes.as_bytes())? == long);
    Ok(())
}
