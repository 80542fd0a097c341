// The number, the place, the layer and the text of every refusal.
use events::raw::FieldFault;
use events::refusal::{Layer, Refusal};
use recorder::fault::RecordFault;
use std::test::Fail;

const FAULTS: [(RecordFault, u8, usize); 13] = [
    (RecordFault::Field(FieldFault::Thread), 1, 0),
    (RecordFault::Field(FieldFault::Kind), 2, 0),
    (RecordFault::Field(FieldFault::Mode), 3, 0),
    (RecordFault::Field(FieldFault::Location), 4, 0),
    (RecordFault::NoEvent(513), 5, 513),
    (RecordFault::NotALoad(1), 6, 1),
    (RecordFault::Unfit(2), 7, 2),
    (RecordFault::ShortMemory, 9, 0),
    (RecordFault::TooMany, 20, 0),
    (RecordFault::NoEvents, 21, 0),
    (RecordFault::StillRead(3), 22, 3),
    (RecordFault::NoWriter(4), 23, 4),
    (RecordFault::Damaged(512), 25, 512),
];

#[test]
fn each_fault(rt: HostRuntime) -> Result<(), Fail> {
    for (fault, number, place) in FAULTS {
        let told = (fault.number(), fault.place(), fault.layer());
        assert!(rt; told == (number, place, Layer::Record));
        let text = format!(in rt.alloc(); "refused {number} {place}")?;
        assert_eq!(rt; fault.to_string(rt.alloc())?, text);
    }
    Ok(())
}
