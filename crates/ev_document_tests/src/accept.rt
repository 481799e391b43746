// One image that is accepted, and one refusal by each rule.

use crate::fixtures::image_of;
use ev_abstract::Refusal;
use ev_accept::{AcceptFault, accept};
use ev_body::{Key, Side};
use std::alloc::Global;
use std::test::Fail;

/// The refusal of an image with the one body of these lines beside those that `fill` gives, and None
/// where it is accepted.
fn refusal(alloc: Global, nest: u8, body: &str) -> Result<Option<Refusal>, Fail> {
    let bodies = format!(in alloc; "{body}endbody\nfill\n")?;
    let image = image_of(alloc, nest, "nop\n", bodies.as_str())?;
    match accept(alloc, image) {
        Ok(_) => Ok(None),
        Err(AcceptFault::Refused(refusal)) => Ok(Some(refusal)),
        Err(AcceptFault::NoMemory) => Err("no memory".into()),
    }
}

#[test]
fn one_refusal_by_each_rule(rt: HostRuntime) -> Result<(), Fail> {
    let missing = Refusal::MissingBody(Key::Irq(0x31), Side::Kernel);
    let cases: [(&str, Refusal); 9] = [
        ("body irq31 user\neoi\nret\n", missing),
        (
            "body nmi both\nnop\nsend 1 nmi\nret\n",
            Refusal::SlotRule(0, 1),
        ),
        (
            "body irq31 both\neoi\nsetrip start\nret\n",
            Refusal::RegisterRule(0, 1),
        ),
        (
            "body irq31 both\neoi\nnop\njz end\nend:\nret\n",
            Refusal::FlagRule(0, 2),
        ),
        ("body irq31 both\neoi\nsti\nret\n", Refusal::IfRule(0, 2)),
        (
            "body irq31 both\neoi\nsti\nnop\ncli\nret\n",
            Refusal::EoiRule(0, 0),
        ),
        ("body bp kernel\nbp\nret\n", Refusal::FaultRule(0, 0)),
        ("body nmi both\nresched\nret\n", Refusal::NmiRule(0, 0)),
        (
            "body irq31 both\neoi\nwait 0\nret\n",
            Refusal::CallRule(0, 1),
        ),
    ];
    for (body, refused) in cases {
        assert_eq!(rt; refusal(rt.alloc(), 9, body)?, Some(refused), "{body}");
    }
    let nesting = refusal(rt.alloc(), 1, "body nmi both\nret\n")?;
    assert_eq!(rt; nesting, Some(Refusal::DeepNesting(2, 1)));
    Ok(())
}

#[test]
fn accepted_with_its_bound(rt: HostRuntime) -> Result<(), Fail> {
    let bodies = "body nmi both\nret\nendbody\nfill\n";
    let image = image_of(rt.alloc(), 2, "nop\n", bodies)?;
    let accepted = accept(rt.alloc(), image).expect(&rt, "refused");
    assert_eq!(rt; accepted.bound(), 2);
    assert_eq!(rt; accepted.image().nest, 2);
    Ok(())
}
