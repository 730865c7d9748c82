// Frame types, settings and urgencies, each by the number that stands for it.
use wire::{Kind, Parameter, UnknownKind, UnknownParameter, UnknownUrgency, Urgency};

#[test]
fn kinds(rt: HostRuntime) {
    let kinds = [
        (Kind::Data, 0u8),
        (Kind::ResetStream, 3),
        (Kind::Settings, 4),
        (Kind::WindowUpdate, 8),
        (Kind::PriorityUpdate, 16),
    ];
    for (kind, octet) in kinds {
        assert_eq!(rt; kind.octet(), octet);
        assert_eq!(rt; Kind::try_from(octet), Ok(kind));
    }
    for octet in [1u8, 2, 5, 6, 7, 9, 15, 17, 128, 255] {
        assert_eq!(rt; Kind::try_from(octet), Err(UnknownKind(octet)));
    }
}

#[test]
fn parameters(rt: HostRuntime) {
    for (parameter, identifier) in [(Parameter::InitialWindow, 4u16), (Parameter::FrameSize, 5)] {
        assert_eq!(rt; parameter.identifier(), identifier);
        assert_eq!(rt; Parameter::try_from(identifier), Ok(parameter));
    }
    for identifier in [0u16, 1, 2, 3, 6, 8, 260, 1024, 65535] {
        assert_eq!(rt;
            Parameter::try_from(identifier),
            Err(UnknownParameter(identifier))
        );
    }
}

#[test]
fn urgencies(rt: HostRuntime) {
    let urgencies = [
        (Urgency::U0, 0u8),
        (Urgency::U1, 1),
        (Urgency::U2, 2),
        (Urgency::U3, 3),
        (Urgency::U4, 4),
        (Urgency::U5, 5),
        (Urgency::U6, 6),
        (Urgency::U7, 7),
    ];
    for (urgency, number) in urgencies {
        assert_eq!(rt; urgency.number(), number);
        assert_eq!(rt; Urgency::try_from(number), Ok(urgency));
    }
    for number in [8u8, 9, 10, 16, 128, 255] {
        assert_eq!(rt; Urgency::try_from(number), Err(UnknownUrgency(number)));
    }
}
