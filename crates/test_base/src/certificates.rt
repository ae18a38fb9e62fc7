//! The readers, the writer and prices on texts that were judged by hand.

ghost use Rattle.std.specs.Prelude.{◌^◌, ◌<◌, length, IfOk};
ghost use Rattle.route_certificate.specs.Forms.{FitsTable};

use route_certificate::{
    FormFault, Priced, Table, Verdict, answer_law, price, read_answer, read_table, read_walk,
    table_law, verdict_law, verify, walk_law, write_answer, write_table,
};
use std::alloc::Global;
use std::process::Abort;
use venue_types::Bytes;

const THREE: &str = "imdf-links 1
node 00000000-0000-4000-8000-000000000001
node 00000000-0000-4000-8000-000000000002
node 00000000-0000-4000-8000-000000000003
link 0 1 633 00000000-0000-4000-8000-00000000000f
link 1 2 200 00000000-0000-4000-8000-000000000009
link 0 2 6700000 00000000-0000-4000-8000-000000000009
end
";

const ONE: &str = "imdf-links 1
node 00000000-0000-4000-8000-000000000001
";

const BAD_LINKS: [&str; 8] = [
    "link 0 1 5 00000000-0000-4000-8000-000000000009\n",
    "link 1 0 5 00000000-0000-4000-8000-000000000009\n",
    "link 0 0 05 00000000-0000-4000-8000-000000000009\n",
    "link 0 0 6700001 00000000-0000-4000-8000-000000000009\n",
    "link 0 0 5 00000000-0000-4000-8000-00000000000A\n",
    "link 0 0 5 00000000-0000-4000-8000-000000000009 \n",
    "link 0 0  5 00000000-0000-4000-8000-000000000009\n",
    "link 0 0 5 00000000-0000-4000-8000-000000000009",
];

fn table_of(alloc: Global, text: &str) -> Result<Table, u64>
    ensures fits { IfOk result FitsTable }
    ensures few { IfOk result (λ table. length table.links < 2 ^ 32) }
{
    if text.len() >= 1_000_000 {
        return Err(99);
    }
    match read_table(alloc, text.as_bytes()) {
        Ok(table) => Ok(table),
        Err(FormFault::Line(line)) => Err(line),
        Err(FormFault::OutOfMemory) => Err(98),
    }
}

fn priced(alloc: Global, text: &str, table: &Table) -> Result<Priced, u64>
    requires fits { FitsTable table.now }
    requires few { length table.now.links < 2 ^ 32 }
{
    if text.len() >= 1_000_000 {
        return Err(99);
    }
    match read_walk(alloc, text.as_bytes(), table) {
        Ok(walk) => Ok(price(table, &walk)),
        Err(FormFault::Line(line)) => Err(line),
        Err(FormFault::OutOfMemory) => Err(98),
    }
}

// What is written of the answer that was read, and the verdict on it.
fn rewritten(alloc: Global, text: &str, table: &Table) -> Result<(Bytes, Verdict), u64>
    requires fits { FitsTable table.now }
    requires few { length table.now.links < 2 ^ 32 }
{
    if text.len() >= 1_000_000 {
        return Err(99);
    }
    answer_law();
    match read_answer(alloc, text.as_bytes(), table) {
        Ok(answer) => match write_answer(alloc, &answer) {
            Ok(bytes) => Ok((bytes, verify(table, &answer))),
            Err(_) => Err(98),
        },
        Err(FormFault::Line(line)) => Err(line),
        Err(FormFault::OutOfMemory) => Err(98),
    }
}

// Texts that are no table, and the line where each isn't one.
const NO_TABLES: [(&str, u64); 10] = [
    ("", 1),
    ("imdf-links 1", 1),
    ("imdf-links 2\nend\n", 1),
    ("imdf-links 1\n", 2),
    ("imdf-links 1\nend", 2),
    ("imdf-links 1\nend\n\n", 3),
    ("imdf-links 1\nend\nx", 3),
    (
        "imdf-links 1\nlink 0 0 5 00000000-0000-4000-8000-000000000009\nend\n",
        2,
    ),
    (
        "imdf-links 1\nnode 00000000-0000-4000-8000-00000000000A\nend\n",
        2,
    ),
    (ONE, 3),
];

fn refuse_tables(rt: &impl Abort, alloc: Global, rows: &[(&str, u64)]) {
    for (text, line) in rows {
        assert!(rt; matches!(table_of(alloc, text), Err(n) if n == *line));
    }
}

fn refuse_link(rt: &impl Abort, alloc: Global, link: &str) {
    let text = format!(in alloc; "{ONE}{link}end\n").expect(rt, "memory");
    assert!(rt; matches!(table_of(alloc, &text), Err(3)));
}

fn refuse_links(rt: &impl Abort, alloc: Global, links: &[&str]) {
    for link in links {
        refuse_link(rt, alloc, link);
    }
}

// A table without nodes.
fn judge_empty(rt: &impl Abort, alloc: Global) {
    let empty = table_of(alloc, "imdf-links 1\nend\n").expect(rt, "a table");
    assert!(rt; priced(alloc, "imdf-walk 1\nfrom 0\nend\n", &empty) == Err(1));
}

// A table as it is written.
fn judge_written(rt: &impl Abort, alloc: Global, table: &Table)
    requires { FitsTable table.now }
{
    let written = write_table(alloc, table).expect(rt, "memory");
    assert!(rt; written.as_slice() == THREE.as_bytes());
}

fn judge_prices(rt: &impl Abort, alloc: Global, table: &Table)
    requires fits { FitsTable table.now }
    requires few { length table.now.links < 2 ^ 32 }
{
    for (text, want) in [
        (
            "imdf-walk 1\nfrom 0\nstep 0\nstep 1\nend\n",
            Ok(Priced::Cost(833)),
        ),
        ("imdf-walk 1\nfrom 2\nend\n", Ok(Priced::Cost(0))),
        ("imdf-walk 1\nfrom 1\nstep 0\nend\n", Ok(Priced::Broken(1))),
        (
            "imdf-walk 1\nfrom 0\nstep 0\nstep 4294967295\nend\n",
            Ok(Priced::Broken(2)),
        ),
        ("imdf-walk 2\nfrom 0\nend\n", Err(1)),
        ("imdf-walk 1\nfrom 3\nend\n", Err(2)),
        ("imdf-walk 1\nfrom 0\nstep 4294967296\nend\n", Err(3)),
        ("imdf-walk 1\nfrom 0\nstep 0\n", Err(4)),
        ("imdf-walk 1\nfrom 0\nstep 0\nend\nend\n", Err(5)),
    ] {
        assert!(rt; priced(alloc, text, table) == want);
    }
}

fn judge_answers(rt: &impl Abort, alloc: Global, table: &Table)
    requires fits { FitsTable table.now }
    requires few { length table.now.links < 2 ^ 32 }
{
    for text in [
        "imdf-answer 1\nfrom 2\nto 0\nnone\nreach 2\nend\n",
        "imdf-answer 1\nfrom 0\nto 2\nroute 833\nstep 0\nstep 1\nat 0 0\nat 1 633\nend\n",
    ] {
        let (bytes, verdict) = rewritten(alloc, text, table).expect(rt, "an answer");
        assert!(rt; bytes.as_slice() == text.as_bytes());
        assert!(rt; verdict == Verdict::Proved);
    }
}

#[test]
fn judges_texts(rt: HostRuntime) {
    let alloc = rt.alloc();
    refuse_tables(&rt, alloc, &NO_TABLES);
    refuse_links(&rt, alloc, &BAD_LINKS);
    judge_empty(&rt, alloc);
    let table = table_of(alloc, THREE).expect(&rt, "a table");
    judge_written(&rt, alloc, &table);
    judge_prices(&rt, alloc, &table);
    judge_answers(&rt, alloc, &table);
    table_law();
    verdict_law();
    walk_law();
}
