//! Texts with what is read of them, up to the line of the first fault.
ghost use Rattle.std.specs.Prelude.{◌<◌, length};

use std::alloc::{AllocError, Global};
use std::test::Fail;
use text_form::{BadText, TextItem, TextReader, TextValue};

fn put_value(shown: &mut Vec<u8>, value: TextValue) -> Result<(), AllocError> {
    match value {
        TextValue::Word(word) => shown.extend_from_slice(word),
        TextValue::Quoted(text) => {
            shown.push(b'"')?;
            shown.extend_from_slice(text)?;
            shown.push(b'"')?;
            Ok(())
        }
    }
}

fn put_line(shown: &mut Vec<u8>, line: u32, name: &[u8]) -> Result<(), AllocError> {
    shown.push(b'0' + (line % 10) as u8)?;
    shown.extend_from_slice(name)
}

fn put_item(shown: &mut Vec<u8>, item: TextItem) -> Result<(), AllocError> {
    match item {
        TextItem::Single { line, name, value } => {
            put_line(shown, line, name)?;
            shown.push(b'=')?;
            put_value(shown, value)?;
        }
        TextItem::Begin { line, name } => {
            put_line(shown, line, name)?;
            shown.push(b'{')?;
        }
        TextItem::End => shown.push(b'}')?,
    }
    shown.push(b' ')?;
    Ok(())
}

/// The items with their lines, and a '!' with the line of a fault.
fn shown(alloc: Global, text: &[u8]) -> Result<Vec<u8>, AllocError>
    requires { length text.now < u32.MAX }
{
    let mut shown = Vec::new(alloc);
    let mut reader = TextReader::new(text);
    'items: loop {
        match reader.next() {
            Ok(Some(item)) => put_item(&mut shown, item)?,
            Ok(None) => return Ok(shown),
            Err(BadText { line }) => {
                put_line(&mut shown, line, b"!")?;
                return Ok(shown);
            }
        }
    }
}

const TEXTS: [(&[u8], &[u8]); 60] = [
    (b"", b""),
    (b" \t\r\n", b""),
    (b"# no field", b""),
    (b"# no field\r\n#", b""),
    (b"a:1", b"1a=1 "),
    (b"a : 1\n", b"1a=1 "),
    (b"\na\n:\n\"x y\"\nb:2", b"2a=\"x y\" 5b=2 "),
    (b"a:\"\"", b"1a=\"\" "),
    (b"a:\"#{}:;,'\"b:-1.5e+3", b"1a=\"#{}:;,'\" 1b=-1.5e+3 "),
    (b"a{}", b"1a{ } "),
    (b"a:{}", b"1a{ } "),
    (b"a # {\n : # {\n { # }\n } # }", b"1a{ } "),
    (b"a{b{c:d}e{}}f:g", b"1a{ 1b{ 1c=d } 1e{ } } 1f=g "),
    (b"a{b:1}c:2", b"1a{ 1b=1 } 1c=2 "),
    (b"a:1;b:2,c{};d{b:3;},", b"1a=1 1b=2 1c{ } 1d{ 1b=3 } "),
    (b"a:1 ;\n b:2", b"1a=1 2b=2 "),
    (b"_9:_9", b"1_9=_9 "),
    (b"a:1#b:2\nc:3", b"1a=1 2c=3 "),
    (b"a:1 b:2", b"1a=1 1b=2 "),
    (b"a\n\n{\n}\nb:1", b"1a{ } 5b=1 "),
    (b";", b"1!"),
    (b"a:1;;", b"1a=1 1!"),
    (b"a:1;,b:2", b"1a=1 1!"),
    (b"a{;}", b"1a{ 1!"),
    (b"a:1b:2", b"1a=1b 1!"),
    (b"1a:1", b"1!"),
    (b"a:1a b", b"1a=1a 1!"),
    (b"a:", b"1!"),
    (b"a:\n", b"2!"),
    (b"a:;", b"1!"),
    (b"a:}", b"1!"),
    (b"a", b"1!"),
    (b"a 1", b"1!"),
    (b"a b:1", b"1!"),
    (b"a:\"x", b"1!"),
    (b"a:\"x\n\"", b"1!"),
    (b"a:\"\\n\"", b"1!"),
    (b"a:'x'", b"1!"),
    (b"a:[1]", b"1!"),
    (b"a:\"\xc3\xa9\"", b"1!"),
    (b"#\xc3\xa9", b"1!"),
    (b"\n# x\n#\x80\n", b"3!"),
    (b"# \r a:1", b""),
    (b"#\x00\x7f\n", b""),
    (b"\x00", b"1!"),
    (b"\x0b", b"1!"),
    (b"a{", b"1a{ 1!"),
    (b"a{\n", b"1a{ 2!"),
    (b"a{b:1", b"1a{ 1b=1 1!"),
    (b"a{#}", b"1a{ 1!"),
    (b"}", b"1!"),
    (b"a{}}", b"1a{ } 1!"),
    (b"a{}\n}\n", b"1a{ } 2!"),
    (b"a::1", b"1!"),
    (b"a{}:1", b"1a{ } 1!"),
    (b"a:{b:1}c{}", b"1a{ 1b=1 } 1c{ } "),
    (b"a:\"x\"b:\"y\"c{}", b"1a=\"x\" 1b=\"y\" 1c{ } "),
    (b"a-b:1", b"1!"),
    (b"a:1:2", b"1a=1 1!"),
    (b"a:\"x\"\"y\"", b"1a=\"x\" 1!"),
];

#[test]
fn reads_texts(rt: HostRuntime) -> Result<(), Fail> {
    for (text, wanted) in TEXTS {
        assert!(rt; text.len() < 100);
        let got = shown(rt.alloc(), text)?;
        assert_eq!(rt; got.as_slice(), wanted);
    }
    Ok(())
}
