//! Which lines are definitions, and which fault comes first.
use super::*;
use criteria_model::ModelFault;
use std::test::Fail;

/// Price, speed and noise of two levels each, and two respondents.
const LINE: &[u8] =
    br#"{"criteria":[{"levels":["high","low"],"name":"price"},{"levels":["slow","fast"],"name":"speed"},{"levels":["loud","quiet"],"name":"noise"}],"degree":3,"respondents":[{"code":"k1","name":"ana"},{"code":"k2","name":"bo"}]}"#;

/// The fault of a line; `None` where it has none.
fn fault_of(alloc: Global, line: &[u8]) -> Result<Option<DefinitionFault>, NoMemory> {
    match read_definition(alloc, line) {
        Ok(_) => Ok(None),
        Err(DefinitionStop::Refused(fault)) => Ok(Some(fault)),
        Err(DefinitionStop::NoMemory) => Err(NoMemory),
    }
}

#[test]
fn lines_of_the_form(rt: HostRuntime) -> Result<(), Fail> {
    let lines: [&[u8]; 4] = [
        LINE,
        // blanks, escapes, and members in another order or twice
        b" {\t\"respondents\" : [{\"name\":\"ana\",\"code\":\"k1\"}] , \"degree\":1,\"criteria\":[{\"name\":\"a\",\"levels\":[\"x\",\"y\"]}]}\r",
        br#"{"criteria":[{"levels":["\u0078","y"],"name":"\ud83d\ude00"}],"degree":9,"degree":1,"respondents":[{"code":"k","name":"a"}]}"#,
        br#"{"criteria":7,"criteria":[{"levels":["x","y"],"name":"a"}],"degree":1,"respondents":[{"code":"k","name":"a"}]}"#,
    ];
    for line in lines {
        assert!(rt; fault_of(rt.alloc(), line)?.is_none(), "{line:?}");
    }
    Ok(())
}

#[test]
fn lines_of_other_forms(rt: HostRuntime) -> Result<(), Fail> {
    let lines: [&[u8]; 22] = [
        // no JSON, no object, and other members
        b"",
        b"{",
        b"[]",
        b"{}",
        b"\xff",
        br#"{"criteria":[],"degree":1}"#,
        br#"{"criteria":[],"degree":1,"respondents":[],"more":1}"#,
        br#"{"Criteria":[],"degree":1,"respondents":[]}"#,
        // members of other types
        br#"{"criteria":{},"degree":1,"respondents":[]}"#,
        br#"{"criteria":[1],"degree":1,"respondents":[]}"#,
        br#"{"criteria":[{"levels":"x","name":"a"}],"degree":1,"respondents":[]}"#,
        br#"{"criteria":[{"levels":[1],"name":"a"}],"degree":1,"respondents":[]}"#,
        br#"{"criteria":[{"levels":[],"name":"a","more":1}],"degree":1,"respondents":[]}"#,
        br#"{"criteria":[],"degree":1,"respondents":{}}"#,
        br#"{"criteria":[],"degree":1,"respondents":[{"code":1,"name":"a"}]}"#,
        br#"{"criteria":[],"degree":1,"respondents":[{"name":"a"}]}"#,
        // degrees that are no whole numbers below 2^64
        br#"{"criteria":[],"degree":"1","respondents":[]}"#,
        br#"{"criteria":[],"degree":1.0,"respondents":[]}"#,
        br#"{"criteria":[],"degree":1e0,"respondents":[]}"#,
        br#"{"criteria":[],"degree":-1,"respondents":[]}"#,
        br#"{"criteria":[],"degree":18446744073709551616,"respondents":[]}"#,
        // a surrogate that stands alone
        br#"{"criteria":[{"levels":[],"name":"\ud83d"}],"degree":1,"respondents":[]}"#,
    ];
    for line in lines {
        assert!(rt;
            fault_of(rt.alloc(), line)? == Some(DefinitionFault::Form),
            "{line:?}"
        );
    }
    Ok(())
}

/// Each line has a further fault that comes later.
#[test]
fn the_form_and_the_model_come_first(rt: HostRuntime) -> Result<(), Fail> {
    let table: [(&[u8], DefinitionFault); 7] = [
        (
            br#"{"criteria":[],"degree":0,"respondents":[],"more":1}"#,
            DefinitionFault::Form,
        ),
        (
            br#"{"criteria":[],"degree":0,"respondents":[]}"#,
            DefinitionFault::Model(ModelFault::NoCriteria),
        ),
        (
            br#"{"criteria":[{"levels":["1","2","3","4","5","6","7","8","9","10","11","12","13","14","15","16","17","18","19","20","21","22","23","24","25","26"],"name":"a"},{"levels":["x"],"name":"b"},{"levels":[],"name":"c"}],"degree":0,"respondents":[]}"#,
            DefinitionFault::Model(ModelFault::Levels { criterion: 2 }),
        ),
        (
            br#"{"criteria":[{"levels":["1","2","3","4","5","6","7","8","9","10","11","12","13","14","15","16","17","18","19","20","21","22","23","24","25","26"],"name":"a"}],"degree":0,"respondents":[]}"#,
            DefinitionFault::Model(ModelFault::Increments { count: 25 }),
        ),
        (
            br#"{"criteria":[{"levels":["x","x"],"name":""}],"degree":0,"respondents":[]}"#,
            DefinitionFault::Model(ModelFault::Degree),
        ),
        (
            br#"{"criteria":[{"levels":["x","x"],"name":""}],"degree":4294967297,"respondents":[]}"#,
            DefinitionFault::Model(ModelFault::Degree),
        ),
        (
            br#"{"criteria":[{"levels":["x","x"],"name":""}],"degree":18446744073709551615,"respondents":[]}"#,
            DefinitionFault::Model(ModelFault::Degree),
        ),
    ];
    for (line, fault) in table {
        assert!(rt; fault_of(rt.alloc(), line)? == Some(fault), "{line:?}");
    }
    Ok(())
}

/// Each line but those of names that stand twice has a further fault that comes later.
#[test]
fn respondents_names_and_repeats_come_next(rt: HostRuntime) -> Result<(), Fail> {
    let table: [(&[u8], DefinitionFault); 7] = [
        (
            br#"{"criteria":[{"levels":["x","x"],"name":""}],"degree":1,"respondents":[]}"#,
            DefinitionFault::Respondents,
        ),
        (
            br#"{"criteria":[{"levels":["x","x"],"name":""}],"degree":1,"respondents":[{"code":"k","name":"a"}]}"#,
            DefinitionFault::Name,
        ),
        (
            br#"{"criteria":[{"levels":["x","x"],"name":"a"}],"degree":1,"respondents":[{"code":"\u007f","name":"a"}]}"#,
            DefinitionFault::Name,
        ),
        (
            br#"{"criteria":[{"levels":["x","x"],"name":"a"}],"degree":1,"respondents":[{"code":"k","name":"a\u001f"}]}"#,
            DefinitionFault::Name,
        ),
        (
            br#"{"criteria":[{"levels":["x","x"],"name":"a"}],"degree":1,"respondents":[{"code":"k","name":"a"}]}"#,
            DefinitionFault::Twice,
        ),
        (
            br#"{"criteria":[{"levels":["x","y"],"name":"a"},{"levels":["x","y"],"name":"a"}],"degree":1,"respondents":[{"code":"k","name":"a"}]}"#,
            DefinitionFault::Twice,
        ),
        (
            br#"{"criteria":[{"levels":["x","y"],"name":"a"},{"levels":["y","x"],"name":"b"}],"degree":1,"respondents":[{"code":"k","name":"a"},{"code":"l","name":"a"}]}"#,
            DefinitionFault::Twice,
        ),
    ];
    for (line, fault) in table {
        assert!(rt; fault_of(rt.alloc(), line)? == Some(fault), "{line:?}");
    }
    Ok(())
}

/// The fault of a line with a criterion's name of this length and this number of respondents.
fn fault_by(
    alloc: Global,
    length: usize,
    respondents: u32,
) -> Result<Option<DefinitionFault>, NoMemory> {
    let name = "x".repeat(alloc, length)?;
    let mut line = format!(in alloc;
        "{{\"criteria\":[{{\"levels\":[\"x\",\"y\"],\"name\":\"{name}\"}}],\"degree\":1,\"respondents\":["
    )?;
    for number in 1..=respondents {
        if number > 1 {
            line.push(',')?;
        }
        let respondent = format!(in alloc; "{{\"code\":\"k\",\"name\":\"r{number}\"}}")?;
        line.push_str(&respondent)?;
    }
    line.push_str("]}")?;
    fault_of(alloc, line.as_bytes())
}

#[test]
fn limits_of_names_and_respondents(rt: HostRuntime) -> Result<(), Fail> {
    let name = Some(DefinitionFault::Name);
    let respondents = Some(DefinitionFault::Respondents);
    let table = [
        (0, 1, name),
        (1, 1, None),
        (64, 16, None),
        (65, 1, name),
        (1, 0, respondents),
        (65, 17, respondents),
    ];
    for (length, count, fault) in table {
        assert!(rt;
            fault_by(rt.alloc(), length, count)? == fault,
            "{length} {count}"
        );
    }
    Ok(())
}

#[test]
fn too_many_classes(rt: HostRuntime) -> Result<(), Fail> {
    // for each number d of criteria from 2 to 15, the ways to take them times 2^(d-1) - 1: (3^15 + 1) / 2 - 2^15 together
    let line =
        br#"{"criteria":[{"levels":["x","y"],"name":"1"},{"levels":["x","y"],"name":"2"},{"levels":["x","y"],"name":"3"},{"levels":["x","y"],"name":"4"},{"levels":["x","y"],"name":"5"},{"levels":["x","y"],"name":"6"},{"levels":["x","y"],"name":"7"},{"levels":["x","y"],"name":"8"},{"levels":["x","y"],"name":"9"},{"levels":["x","y"],"name":"10"},{"levels":["x","y"],"name":"11"},{"levels":["x","y"],"name":"12"},{"levels":["x","y"],"name":"13"},{"levels":["x","y"],"name":"14"},{"levels":["x","y"],"name":"15"}],"degree":15,"respondents":[]}"#;
    let fault = DefinitionFault::Model(ModelFault::Classes { count: 7_141_686 });
    assert!(rt; fault_of(rt.alloc(), line)? == Some(fault));
    Ok(())
}

#[test]
fn look_ups(rt: HostRuntime) -> Result<(), Fail> {
    let Ok(definition) = read_definition(rt.alloc(), LINE) else {
        assert!(rt; false);
        return Ok(());
    };
    assert_eq!(rt; definition.respondents(), 2);
    let names: [(&[u8], Option<u32>); 4] = [
        (b"ana", Some(1)),
        (b"bo", Some(2)),
        (b"k1", None),
        (b"\xff", None),
    ];
    for (name, number) in names {
        assert!(rt; definition.respondent(name) == number, "{name:?}");
    }
    let codes: [(u32, &[u8], bool); 6] = [
        (1, b"k1", true),
        (2, b"k2", true),
        (1, b"k2", false),
        (2, b"k1", false),
        (0, b"k1", false),
        (3, b"k1", false),
    ];
    for (respondent, code, is) in codes {
        assert!(rt;
            definition.code_is(respondent, code) == is,
            "{respondent} {code:?}"
        );
    }
    Ok(())
}

#[test]
fn levels_of_each_criterion(rt: HostRuntime) -> Result<(), Fail> {
    let Ok(definition) = read_definition(rt.alloc(), LINE) else {
        assert!(rt; false);
        return Ok(());
    };
    let model = definition.model();
    assert_eq!(rt; model.criteria(), 3);
    assert_eq!(rt; model.degree(), 3);
    let table: [(u8, &[u8], &[u8], Option<u8>); 6] = [
        (1, b"price", b"high", Some(1)),
        (1, b"price", b"low", Some(2)),
        (2, b"speed", b"fast", Some(2)),
        (2, b"speed", b"low", None),
        (3, b"noise", b"fast", None),
        (3, b"noise", b"quiet\xff", None),
    ];
    for (criterion, name, level, number) in table {
        assert!(rt; 1 <= criterion && criterion <= model.criteria());
        assert!(rt; definition.criterion_name(criterion) == name);
        assert!(rt;
            definition.level_of(criterion, level) == number,
            "{criterion} {level:?}"
        );
    }
    Ok(())
}
