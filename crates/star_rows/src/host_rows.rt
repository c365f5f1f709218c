//! Tables of answers, and a host that is called through its bound.
use bz_base::Label;
use bz_text::{Mem, Seq, Txt};
use star_core::{Answer, Answers, Args, Cell, Heap, Host, HostStep, MemHost, Question, Val};
use std::alloc::Global;
use std::process::Abort;
use std::test::Fail;

fn file(alloc: Global, name: &str) -> Mem<Label> {
    Ok(Label {
        repo: Txt::of(alloc, "")?,
        package: Txt::of(alloc, "p")?,
        name: Txt::of(alloc, name)?,
    })
}

fn mapping(alloc: Global) -> Mem<Question> {
    Ok(Question::Map {
        home: Txt::of(alloc, "h+")?,
        apparent: Txt::of(alloc, "a")?,
    })
}

/// A table with one answer.
fn table_of(alloc: Global, question: Question, answer: Answer) -> Mem<Answers> {
    let mut table = Answers::new(alloc);
    table.add(question, answer)?;
    Ok(table)
}

#[test]
fn a_file_is_no_directory(rt: HostRuntime) -> Result<(), Fail> {
    let alloc = rt.alloc();
    let table = table_of(alloc, Question::File(file(alloc, "f")?), Answer::Large)?;
    let asked = Question::File(file(alloc, "f")?);
    assert!(rt; matches!(table.get(&asked), Some(Answer::Large)));
    Ok(())
}

#[test]
fn another_directory_has_no_answer(rt: HostRuntime) -> Result<(), Fail> {
    let alloc = rt.alloc();
    let names = Answer::Names(Seq::new(alloc));
    let table = table_of(alloc, Question::Dirents(file(alloc, "f")?), names)?;
    let asked = Question::Dirents(file(alloc, "g")?);
    assert!(rt; table.get(&asked).is_none());
    Ok(())
}

#[test]
fn a_mapping_and_the_system(rt: HostRuntime) -> Result<(), Fail> {
    let alloc = rt.alloc();
    let table = table_of(alloc, mapping(alloc)?, Answer::Nothing)?;
    assert!(rt; matches!(table.get(&mapping(alloc)?), Some(Answer::Nothing)));
    assert!(rt; table.get(&Question::OsName).is_none());
    assert!(rt; table.get(&Question::OsArch).is_none());
    Ok(())
}

/// A method of an object, called through the bound: the number, or that it was asked.
fn called<H: Host>(host: &mut H, alloc: Global, method: &str, known: &Answers) -> Mem<Option<i64>> {
    let mut heap = Heap::new(alloc);
    let args = Args {
        positional: Seq::new(alloc),
        named: Seq::new(alloc),
    };
    match host.call(alloc, &mut heap, 0, method, &args, 1, known)? {
        HostStep::Value(Val::Int(count)) => Ok(Some(count)),
        HostStep::Asks(Question::OsName) => Ok(None),
        _ => Ok(Some(-1)),
    }
}

/// Whether a field gives this text.
fn tells<H: Host>(host: &mut H, alloc: Global, known: &Answers, want: &str) -> Mem<bool> {
    let mut heap = Heap::new(alloc);
    let HostStep::Value(value) = host.field(alloc, &mut heap, 0, "name", known)? else {
        return Ok(false);
    };
    Ok(matches!(heap.cell(&value), Some(Cell::Text(name)) if name.as_str() == want))
}

#[test]
fn a_host_asks_and_goes_on(rt: HostRuntime) -> Result<(), Fail> {
    let alloc = rt.alloc();
    let mut host = MemHost { calls: 0 };
    let nothing = Answers::new(alloc);
    let known = table_of(
        alloc,
        Question::OsName,
        Answer::Text(Txt::of(alloc, "linux")?),
    )?;
    assert_eq!(rt; called(&mut host, alloc, "count", &nothing)?, Some(1));
    assert_eq!(rt; called(&mut host, alloc, "name", &nothing)?, None);
    assert!(rt; tells(&mut host, alloc, &known, "linux")?);
    assert_eq!(rt; called(&mut host, alloc, "count", &known)?, Some(2));
    Ok(())
}
