use crate::{Attributes, Tag, TagFault, TagReader};
use std::alloc::{AllocError, Global};
use std::test::Fail;

fn text_of_attributes(alloc: Global, attributes: &Attributes) -> Result<String, AllocError> {
    let mut text = String::new(alloc);
    for index in 0..attributes.len() {
        if let Some((name, value)) = attributes.pair(index) {
            write!(text, "{name}=[{value}] ")?;
        }
    }
    Ok(text)
}

fn text_of_tag(alloc: Global, tag: &Tag) -> Result<String, AllocError> {
    match tag {
        Tag::Start {
            name,
            attributes,
            place,
        } => {
            let name = name.as_str();
            let attributes = text_of_attributes(alloc, attributes)?;
            format!(in alloc; "+{name}@{place} {attributes}")
        }
        Tag::End { place } => format!(in alloc; "-@{place} "),
        Tag::Finish => String::from_str(alloc, "finish"),
    }
}

fn text_of_fault(alloc: Global, fault: TagFault) -> Result<String, AllocError> {
    match fault {
        TagFault::Bad(place) => format!(in alloc; "bad {place}"),
        TagFault::Utf8(place) => format!(in alloc; "utf8 {place}"),
        TagFault::Deep(place) => format!(in alloc; "deep {place}"),
        TagFault::NoMemory => String::from_str(alloc, "no memory"),
    }
}

// What a document gives: `+name@place name=[value]..` for a start, `-@place` for an end, and how it ends.
fn told(alloc: Global, document: &[u8]) -> Result<String, AllocError> {
    let mut reader = TagReader::new(document);
    let mut told = String::new(alloc);
    for _ in 0..200u32 {
        match reader.next(alloc) {
            Ok(tag) => {
                told.push_str(text_of_tag(alloc, &tag)?.as_str())?;
                if matches!(tag, Tag::Finish) {
                    return Ok(told);
                }
            }
            Err(fault) => {
                told.push_str(text_of_fault(alloc, fault)?.as_str())?;
                return Ok(told);
            }
        }
    }
    Ok(told)
}

#[test]
fn pieces_stand_where_the_profile_lets_them(rt: HostRuntime) -> Result<(), Fail> {
    let cases = [
        ("", "bad 0"),
        ("\u{feff}", "bad 3"),
        ("\u{feff}<a/>", "+a@3 -@3 finish"),
        ("<a/>\u{feff}", "+a@0 -@0 bad 4"),
        ("<a>\u{feff}</a>", "+a@0 -@6 finish"),
        (" \t\r\n<a/>\n", "+a@4 -@4 finish"),
        ("x<a/>", "bad 0"),
        ("<a/> x", "+a@0 -@0 bad 5"),
        ("<?x ? > ?><!--y--><a/><!----><??>", "+a@18 -@18 finish"),
        ("<?>", "bad 0"),
        ("<!-->", "bad 0"),
        ("<!-->--><a/>", "+a@8 -@8 finish"),
        ("<!---><a/>", "bad 0"),
        ("<!-- -- - -><a/>", "bad 0"),
        ("<!-- -- - --><a/>", "+a@13 -@13 finish"),
        ("<!DOCTYPE a><a/>", "bad 0"),
        ("<a>x]]> &y; > \" '</a>", "+a@0 -@17 finish"),
        ("<a><![CDATA[x]]></a>", "+a@0 bad 3"),
        ("<a>x<?y", "+a@0 bad 4"),
        ("<a>x", "+a@0 bad 4"),
        ("<a><b/>", "+a@0 +b@3 -@3 bad 7"),
        ("<a/><b/>", "+a@0 -@0 bad 4"),
        ("</a>", "bad 0"),
    ];
    for (document, want) in cases {
        assert_eq!(rt;
            told(rt.alloc(), document.as_bytes())?.as_str(),
            want,
            "{document}"
        );
    }
    Ok(())
}

#[test]
fn tags_have_names_and_attributes(rt: HostRuntime) -> Result<(), Fail> {
    let cases = [
        ("<a ></a\n>", "+a@0 -@4 finish"),
        ("<a\t/>", "+a@0 -@0 finish"),
        ("< a/>", "bad 0"),
        ("<a></ a>", "+a@0 bad 3"),
        ("<a></b>", "+a@0 bad 3"),
        ("<a></a b='c'>", "+a@0 bad 3"),
        ("<a><b></a></b>", "+a@0 +b@3 bad 6"),
        ("<a/ >", "bad 0"),
        ("<a", "bad 0"),
        ("<_:\u{e9}-.9/>", "+_:\u{e9}-.9@0 -@0 finish"),
        ("<9/>", "bad 0"),
        ("<-a/>", "bad 0"),
        ("<.a/>", "bad 0"),
        (
            "<a b=\"1\" c = '2'\n\td='>'/>",
            "+a@0 b=[1] c=[2] d=[>] -@0 finish",
        ),
        ("<a b='\"' c=\"'\"/>", "+a@0 b=[\"] c=['] -@0 finish"),
        ("<a b='1'c='2'/>", "bad 0"),
        ("<a b=1/>", "bad 0"),
        ("<a b='1\"/>", "bad 0"),
        ("<a b/>", "bad 0"),
        ("<a b='1' b='1'/>", "bad 0"),
        ("<a b='1' c='2' b='3'/>", "bad 0"),
        ("<a b='1' B='1'/>", "+a@0 b=[1] B=[1] -@0 finish"),
        ("<a b='<'/>", "bad 0"),
    ];
    for (document, want) in cases {
        assert_eq!(rt;
            told(rt.alloc(), document.as_bytes())?.as_str(),
            want,
            "{document}"
        );
    }
    Ok(())
}

#[test]
fn values_have_references_and_line_ends(rt: HostRuntime) -> Result<(), Fail> {
    let cases = [
        ("x\ty\nz\rx\r\ny\n\rz", "[x y z x y  z]"),
        (
            "&lt;&gt;&amp;&quot;&apos;&#65;&#x42;&#x2aC;",
            "[<>&\"'AB\u{2ac}]",
        ),
        ("&#10;\r&#10;", "[\n \n]"),
        ("&#x10FFFF;&#xD7ff;", "[\u{10ffff}\u{d7ff}]"),
        ("&#00000000000000000000065;", "[A]"),
    ];
    for (value, want) in cases {
        let document = format!(in rt.alloc(); "<a b=\"{value}\"/>")?;
        let expected = format!(in rt.alloc(); "+a@0 b={want} -@0 finish")?;
        assert_eq!(rt;
            told(rt.alloc(), document.as_bytes())?.as_str(),
            expected.as_str(),
            "{value}"
        );
    }
    let bad = [
        "&",
        "&lt",
        "&nbsp;",
        "&;",
        "&#;",
        "&#x;",
        "&#0;",
        "&#x00;",
        "&#xD800;",
        "&#xDFFF;",
        "&#x110000;",
        "&#99999999999999999999;",
        "&#6a;",
        "&#X41;",
        "&#-1;",
        "&#+1;",
        "& lt;",
        "&lt ;",
        "&LT;",
    ];
    for value in bad {
        let document = format!(in rt.alloc(); "<a b='{value}'/>")?;
        assert_eq!(rt;
            told(rt.alloc(), document.as_bytes())?.as_str(),
            "bad 0",
            "{value}"
        );
    }
    Ok(())
}

#[test]
fn thirty_two_elements_may_be_open(rt: HostRuntime) -> Result<(), Fail> {
    for (last, want) in [
        ("</a>", "-@96 bad 100"),
        ("<b/>", "deep 96"),
        ("<b>", "deep 96"),
        ("<b c='1' c='1'>", "bad 96"),
    ] {
        let mut document = String::new(rt.alloc());
        let mut expected = String::new(rt.alloc());
        for depth in 0..32u32 {
            document.push_str("<a>")?;
            let place = 3 * depth;
            write!(expected, "+a@{place} ")?;
        }
        document.push_str(last)?;
        expected.push_str(want)?;
        assert_eq!(rt;
            told(rt.alloc(), document.as_bytes())?.as_str(),
            expected.as_str(),
            "{last}"
        );
    }
    Ok(())
}

#[test]
fn ill_formed_octets_come_before_all_else(rt: HostRuntime) -> Result<(), Fail> {
    assert_eq!(rt; told(rt.alloc(), b"<a/>\xe2\x82")?.as_str(), "utf8 4");
    assert_eq!(rt; told(rt.alloc(), b"<b><\xff")?.as_str(), "utf8 4");
    Ok(())
}

#[test]
fn an_attribute_is_found_by_its_name(rt: HostRuntime) -> Result<(), Fail> {
    let mut reader = TagReader::new(b"<a b='1' c='2'/>");
    match reader.next(rt.alloc()) {
        Ok(Tag::Start { attributes, .. }) => {
            assert_eq!(rt; attributes.get("c"), Some("2"));
            assert_eq!(rt; attributes.get("d"), None);
            assert_eq!(rt; attributes.pair(2), None);
        }
        _ => return Err(Fail::from("no start")),
    }
    Ok(())
}

#[test]
fn a_fault_says_its_place(rt: HostRuntime) -> Result<(), Fail> {
    let fault = TagFault::Deep(96);
    assert_eq!(rt;
        format!(in rt.alloc(); "{fault}")?.as_str(),
        "too many open elements at 96"
    );
    Ok(())
}

#[test]
fn an_element_has_as_many_attributes_as_it_likes(rt: HostRuntime) -> Result<(), Fail> {
    let mut document = String::new(rt.alloc());
    document.push_str("<a")?;
    for number in 0..1000u32 {
        write!(document, " n{number}='{number}'")?;
    }
    document.push_str("/>")?;
    let mut reader = TagReader::new(document.as_bytes());
    let Tag::Start { attributes, .. } = reader.next(rt.alloc())? else {
        return Err(Fail::from("no start"));
    };
    assert_eq!(rt; attributes.len(), 1000);
    assert_eq!(rt; attributes.get("n999"), Some("999"));
    Ok(())
}
