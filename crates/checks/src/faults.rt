//! Faults by their numbers, and in words.
use fault::{Fault, Refusal};
use std::test::Fail;

#[test]
fn numbers(rt: HostRuntime) {
    let cases = [
        (Fault::new(Refusal::OutputLength), [3, 2, 0, 0, 0]),
        (Fault::new(Refusal::Outside), [9, 1, 0, 0, 0]),
        (Fault::at_record(Refusal::BadRecord, 5), [11, 3, 5, 0, 0]),
        (Fault::new(Refusal::NoShape), [16, 4, 0, 0, 0]),
        (Fault::new(Refusal::TableBytes), [17, 3, 0, 0, 0]),
        (
            Fault::in_step(4, 2, Fault::new(Refusal::InputLength)),
            [14, 3, 4, 2, 2],
        ),
    ];
    for (f, [number, layer, record, step, cause]) in cases {
        assert_eq!(rt; u32::from(f.number()), number);
        assert_eq!(rt; u32::from(f.layer()), layer);
        assert_eq!(rt; f.record(), record);
        assert_eq!(rt; f.step(), step);
        assert_eq!(rt; u32::from(f.cause()), cause);
    }
}

#[test]
fn words(rt: HostRuntime) -> Result<(), Fail> {
    let fault = Fault::in_step(4, 2, Fault::new(Refusal::InputLength));
    let line = format!(in rt.alloc(); "{fault}")?;
    assert_eq!(rt;
        line.as_str(),
        "record 4, step 2, refusal 14: the step does not fit the length (refusal 2: the input or front does not hold width times height elements)"
    );
    Ok(())
}

/// The text names what a fault says, whatever fields hold it.
#[test]
fn debug(rt: HostRuntime) -> Result<(), Fail> {
    let fault = Fault::in_step(4, 2, Fault::new(Refusal::InputLength));
    let text = format!(in rt.alloc(); "{fault:?}")?;
    assert_eq!(rt;
        text.as_str(),
        "Fault { refusal: StepRefused, record: 4, step: 2, cause: Some(InputLength) }"
    );
    let fault = Fault::at_record(Refusal::NoRecord, 7);
    let text = format!(in rt.alloc(); "{fault:?}")?;
    assert_eq!(rt;
        text.as_str(),
        "Fault { refusal: NoRecord, record: 7, step: 0, cause: None }"
    );
    Ok(())
}
