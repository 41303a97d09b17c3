//! Texts that are read and written again, decided by hand from docs/FORMATS.md.
use c25_image::{read_image, read_ports, write_image, write_outs};
use std::process::Abort;
use std::test::Fail;
use word_base::PortWord;

// Reads the image of a text, and writes it again.
fn is_kept<R: AllocGlobal + Abort>(rt: &R, text: &str) -> Result<(), Fail> {
    let image = read_image(rt.alloc(), text.as_bytes())?;
    let written = write_image(rt.alloc(), &image)?;
    assert_eq!(rt; written.as_slice(), text.as_bytes(), "at {text}");
    Ok(())
}

#[test]
fn images_both_ways(rt: HostRuntime) -> Result<(), Fail> {
    is_kept(&rt, "C25 IMAGE 1\nwords 0\nend\n")?;
    is_kept(
        &rt,
        "C25 IMAGE 1\nwords 8\nc806 d001 0005 6000 e100 d001 0007 ce1f\nfunc main 0000 0007\nend\n",
    )?;
    is_kept(
        &rt,
        "C25 IMAGE 1\nwords 9\n0000 0001 0002 0003 0004 0005 0006 0007\nffff\nfunc _a 0000 0003\nfunc b9 0005 0005\nend\n",
    )
}

#[test]
fn outputs(rt: HostRuntime) -> Result<(), Fail> {
    let outs = [
        PortWord::new(1, 5),
        PortWord::new(15, 0xffff),
        PortWord::new(0, 0x10),
    ];
    let text = write_outs(rt.alloc(), &outs)?;
    assert_eq!(&rt; text.as_slice(), b"1 0005\n15 ffff\n0 0010\n".as_slice());
    let ports = read_ports(rt.alloc(), text.as_slice())?;
    assert_eq!(&rt; ports.lines(), outs.as_slice());
    Ok(())
}

// Reads the port file of a text, and writes its words.
fn is_written<R: AllocGlobal + Abort>(rt: &R, text: &str, outs: &str) -> Result<(), Fail> {
    let ports = read_ports(rt.alloc(), text.as_bytes())?;
    let written = write_outs(rt.alloc(), ports.lines())?;
    assert_eq!(rt; written.as_slice(), outs.as_bytes(), "at {text}");
    Ok(())
}

#[test]
fn port_files(rt: HostRuntime) -> Result<(), Fail> {
    is_written(&rt, "", "")?;
    is_written(&rt, "\n\r\n", "")?;
    is_written(&rt, "0 000a\n0 000b\n0 000c\n", "0 000a\n0 000b\n0 000c\n")?;
    is_written(&rt, "1   5\r\n\n15 FfFf", "1 0005\n15 ffff\n")?;
    is_written(&rt, "10 0\n9 12\n", "10 0000\n9 0012\n")
}
