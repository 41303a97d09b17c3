//! Words whose request no run shows: an empty name, which no file has.
use cc_words::{
    Asm, Build, Check, Debug, Dis, Exec, Gen, Join, Layout, Means, Pbuild, Pre, Request, Run,
    requested,
};
use std::alloc::Global;
use std::test::Fail;

// A join, as a line.
fn joining(alloc: Global, asked: &Join<'_>) -> Result<String, Fail> {
    let mut line = format!(in alloc; "join {}", asked.output)?;
    for name in asked.sources.iter() {
        line.push_str(" ")?;
        line.push_str(name)?;
    }
    Ok(line)
}

// What is asked for, as a line.
fn shown(alloc: Global, request: &Option<Request>) -> Result<String, Fail> {
    Ok(match request {
        None => String::from_str(alloc, "refused")?,
        Some(Request::Build(asked)) => {
            let Build {
                source,
                image,
                registers,
                budget,
                step,
            } = asked;
            format!(in alloc; "build {source} {image} {registers} {budget} {step}")?
        }
        Some(Request::Run(asked)) => {
            let Run {
                image,
                ports,
                steps,
            } = asked;
            format!(in alloc; "run {image} {ports} {steps}")?
        }
        Some(Request::Means(asked)) => {
            let Means {
                source,
                ports,
                turns,
            } = asked;
            format!(in alloc; "means {source} {ports} {turns}")?
        }
        Some(Request::Exec(asked)) => {
            let Exec {
                source,
                ports,
                steps,
            } = asked;
            format!(in alloc; "exec {source} {ports} {steps}")?
        }
        Some(Request::Layout(asked)) => {
            let Layout {
                sequence,
                registers,
                budget,
            } = asked;
            format!(in alloc; "layout {sequence} {registers} {budget}")?
        }
        Some(Request::Check(Check { image, certificate })) => {
            format!(in alloc; "check {image} {certificate}")?
        }
        Some(Request::Asm(Asm { text, image })) => { format!(in alloc; "asm {text} {image}")? }
        Some(Request::Dis(Dis { image })) => { format!(in alloc; "dis {image}")? }
        Some(Request::Gen(Gen { number })) => { format!(in alloc; "gen {number}")? }
        Some(Request::Debug(asked)) => {
            let Debug {
                image,
                ports,
                script,
            } = asked;
            format!(in alloc; "debug {image} {ports} {script}")?
        }
        Some(Request::Pre(Pre { source, output })) => {
            format!(in alloc; "pre {source} {output}")?
        }
        Some(Request::Join(asked)) => { joining(alloc, asked)? }
        Some(Request::Pbuild(asked)) => {
            let Pbuild {
                source,
                first,
                ports,
                image,
                registers,
                budget,
                steps,
            } = asked;
            format!(in alloc;
                "pbuild {source} {first} {ports} {image} {registers} {budget} {steps}"
            )?
        }
    })
}

// What the words of a line ask for.
fn answer(alloc: Global, line: &str) -> Result<String, Fail> {
    let mut words = Vec::new(alloc);
    for word in line.split(' ') {
        words.push(String::from_str(alloc, word)?)?;
    }
    shown(alloc, &requested(alloc, words.as_slice())?)
}

#[test]
fn empty_name(rt: HostRuntime) -> Result<(), Fail> {
    let request = answer(rt.alloc(), "build  b")?;
    assert_eq!(&rt; request.as_str(), "build  b 1 200000 1");
    let request = answer(rt.alloc(), "join o  b")?;
    assert_eq!(&rt; request.as_str(), "join o  b");
    let request = answer(rt.alloc(), "pbuild a  p o")?;
    assert_eq!(&rt; request.as_str(), "pbuild a  p o 1 200000 1000000");
    Ok(())
}
