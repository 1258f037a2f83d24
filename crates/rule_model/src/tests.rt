use crate::FieldValue;
use schc_bits::{Bits, CopyItem, Same};
use schc_ids::{FieldAt, FieldName};
use std::test::Fail;

#[test]
fn a_copied_field_is_the_same(rt: HostRuntime) -> Result<(), Fail> {
    let mut value = Bits::new(rt.alloc());
    value.push(true)?;
    let field = FieldValue {
        at: FieldAt {
            name: FieldName::CoapOption(11),
            position: 2,
        },
        value,
    };
    let mut copy = field.copy_item(rt.alloc())?;
    assert!(rt; copy.same(&field));
    copy.at.position = 1;
    assert!(rt; !copy.same(&field));
    Ok(())
}
