// Tests of the tape: a worked record byte by byte, full buffers, and the longest tape.
#![tactic(auto)]

#[cfg(test)]
mod tests {
    use std::test::Fail;
    use tape::reader::check as check_tape;
    use tape::record::Record;
    use tape::writer::Writer;

    // A trade at 55,770,000 ms, 38,125 points, volume 1, symbol NK, behind the version byte.
    const WORKED: [u8; 18] = [
        0x01, 0x00, 0x0F, 0x01, 0x03, 0x52, 0xFB, 0x90, 0x00, 0x3A, 0x2C, 0x94, 0x00, 0x00, 0x00,
        0x01, 0x4E, 0x4B,
    ];

    const UNTOUCHED: u8 = 0xAA;

    fn worked() -> Record<'static> {
        Record::Trade {
            time: 55_770_000,
            price: 3_812_500,
            volume: 1,
            symbol: b"NK",
        }
    }

    // How many records a tape has, or a refusal's code.
    fn verdict(tape: &[u8]) -> Result<usize, u8> {
        check_tape(tape).map_err(|fault| fault.code())
    }

    // What a record's append to a new tape answers, with a refusal's code.
    fn write_one(buffer: &mut [u8]) -> Result<(), u8> {
        let mut writer = Writer::start(buffer);
        writer.append(&worked()).map_err(|fault| fault.code())
    }

    #[test]
    fn a_full_buffer_holds_the_worked_record(rt: HostRuntime) {
        let mut buffer = [UNTOUCHED; 18];
        assert_eq!(rt; write_one(&mut buffer), Ok(()));
        assert!(rt; buffer == WORKED);
        assert_eq!(rt; verdict(&buffer), Ok(1));
    }

    #[test]
    fn a_buffer_one_byte_short_keeps_its_bytes(rt: HostRuntime) {
        let mut buffer = [UNTOUCHED; 17];
        assert_eq!(rt; write_one(&mut buffer), Err(12));
        assert_eq!(rt; buffer[0], 1);
        assert!(rt; &buffer[1..17] == &[UNTOUCHED; 16][0..16]);
    }

    // How many records of 25 bytes, `most` at most, a buffer takes, and what the last one offered gets.
    fn fill(buffer: &mut [u8], most: u32) -> (u32, Result<(), u8>) {
        let item = Record::Quote {
            time: 0,
            bid: 1,
            offer: 20_000_000,
            symbol: b"0123456789",
        };
        let mut writer = Writer::start(buffer);
        for taken in 0..most {
            if let Err(fault) = writer.append(&item) {
                return (taken, Err(fault.code()));
            }
        }
        (most, Ok(()))
    }

    // 41,943 records of 25 bytes and the version byte are 1,048,576 bytes.
    #[test]
    fn the_longest_tape_is_taken_and_one_byte_more_is_not(rt: HostRuntime) -> Result<(), Fail> {
        let mut buffer = vec![in rt.alloc(); 0; 1_048_577]?;
        assert_eq!(rt; fill(&mut buffer, 50_000), (41_943, Err(12)));
        assert!(rt; buffer.len() == 1_048_577);
        assert_eq!(rt; verdict(&buffer[0..1_048_576]), Ok(41_943));
        assert_eq!(rt; verdict(&buffer), Err(7));
        Ok(())
    }
}
