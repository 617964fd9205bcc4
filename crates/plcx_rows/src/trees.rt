//! What `read_tree` makes of whole files: texts, attributes and their spans.
use plcx_types::Span;
use plcx_xml::{Element, Node, read_tree};
use std::alloc::Global;
use std::test::Fail;

fn root_of(alloc: Global, file: &[u8]) -> Result<Element<'_>, Fail> {
    match read_tree(alloc, file) {
        Ok(Node::Element(root)) => Ok(root),
        Ok(Node::Text(_text)) => Err(Fail::from("the file has no element")),
        Err(_fault) => Err(Fail::from("the file has no tree")),
    }
}

#[test]
fn texts_are_joined(rt: HostRuntime) -> Result<(), Fail> {
    let rows: [(&str, &str, u64, u64); 8] = [
        ("<a>b</a>", "b", 3, 4),
        ("<a>b<!-- c -->d</a>", "bd", 3, 15),
        ("<a><!-- c -->d<?e?></a>", "d", 13, 14),
        ("<a>b&amp;<![CDATA[<&]]]]>&#x41;</a>", "b&<&]]A", 3, 31),
        (
            "<a>&lt;&gt;&amp;&quot;&apos;&#9;&#0065;</a>",
            "<>&\"'\tA",
            3,
            39,
        ),
        (
            "<a>\u{E9}&#233;&#x1F600;</a>",
            "\u{E9}\u{E9}\u{1F600}",
            3,
            20,
        ),
        ("<a><![CDATA[]]></a>", "", 3, 15),
        ("<a> \r\n</a>", " \r\n", 3, 6),
    ];
    for (file, value, start, end) in rows {
        let root = root_of(rt.alloc(), file.as_bytes())?;
        assert_eq!(rt; root.children().len(), 1);
        match &root.children()[0] {
            Node::Text(text) => {
                assert_eq!(rt; text.value(), value.as_bytes());
                assert_eq!(rt; text.span(), Span { start, end });
            }
            Node::Element(_) => return Err(Fail::from("no element stands there")),
        }
    }
    Ok(())
}

#[test]
fn an_element_has_its_parts(rt: HostRuntime) -> Result<(), Fail> {
    let file = "<a b = 'x&#33;' \u{E9}.1-:\t=\t\"'\"\n> <c/></a  >";
    let root = root_of(rt.alloc(), file.as_bytes())?;
    assert_eq!(rt; root.name(), b"a".as_slice());
    assert_eq!(rt; root.span(), Span { start: 0, end: 41 });
    assert_eq!(rt; root.attributes().len(), 2);
    let first = &root.attributes()[0];
    assert_eq!(rt; first.name(), b"b".as_slice());
    assert_eq!(rt; first.value(), b"x!".as_slice());
    assert_eq!(rt; first.span(), Span { start: 3, end: 15 });
    let second = &root.attributes()[1];
    assert_eq!(rt; second.name(), "\u{E9}.1-:".as_bytes());
    assert_eq!(rt; second.value(), b"'".as_slice());
    assert_eq!(rt; second.span(), Span { start: 16, end: 28 });
    assert_eq!(rt; root.children().len(), 2);
    Ok(())
}
