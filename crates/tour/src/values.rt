// Universal values, as they stand in messages.
use basics::refusal::Refusal;
use show::Hex;
use std::io;
use value::fault::ValueFault;
use value::read::read_value;
use value::time::Time;
use value::universal::Value;

pub(crate) fn follow(rt: &impl Print) -> io::Result<()> {
    read(rt, &[0x83, 0xFF])?;
    read(rt, &[0x03])?;
    read(rt, &[0x8C, 0x02, 0x00, 0xD0, 0x96])?;
    read(rt, &[0x8E, 0xA3, 0x1F, 0xD2, 0x01, 0x33, 0xAF, 0xA5, 0x8F])?;
    read(rt, &[0x8E, 0xA3, 0x1F, 0xDD, 0x01, 0x33, 0xAF, 0xA5, 0x8F])
}

// These bytes as a value.
fn read(rt: &impl Print, bytes: &[u8]) -> io::Result<()> {
    println!(rt; "  these bytes       {}", Hex(bytes))?;
    match read_value(bytes) {
        Ok((value, _)) => told(rt, value),
        Err(refusal) => refused(rt, refusal),
    }
}

fn told(rt: &impl Print, value: Value<'_>) -> io::Result<()> {
    match value {
        Value::Absent(kind) => println!(rt; "    absent          of type {}", kind.number()),
        Value::U8(number) => println!(rt; "    number          {number}"),
        Value::Text(text) => println!(rt;
            "    text            {} bytes of UTF-8",
            text.bytes.len()
        ),
        Value::Time(
            Time {
                date: Some(date),
                clock: Some(clock),
            },
        ) => {
            println!(rt;
                "    date            {date}, day {} of the week",
                date.weekday
            )?;
            println!(rt; "    time of day     {clock}")
        }
        _ => println!(rt; "    another value"),
    }
}

fn refused(rt: &impl Print, refusal: Refusal<ValueFault>) -> io::Result<()> {
    println!(rt; "    refused         {refusal}")
}
