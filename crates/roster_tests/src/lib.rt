// Tests of codes, listings and the roster on examples.
#![tactic(auto)]

#[cfg(test)]
mod tests {
    use listings::code::{MonthCode, month_of};
    use listings::futures::FuturesMonth;
    use listings::series::{OptionContract, OptionSeries, Right};
    use roster::fault::RosterFault;
    use roster::held::Roster;
    use roster::listing::Listing;
    use std::test::Fail;

    fn month(letter: char) -> FuturesMonth {
        FuturesMonth::from(MonthCode { letter, year: 27 })
    }

    fn contract(letter: char, strike: u32) -> OptionContract {
        OptionContract {
            code: MonthCode { letter, year: 27 },
            strike,
            right: Right::Call,
        }
    }

    fn series(strike: u32) -> OptionSeries {
        OptionSeries::from(contract('H', strike))
    }

    // An answer, its refusal as a code.
    fn coded<T>(answer: Result<T, RosterFault>) -> Result<T, u8> {
        answer.map_err(|fault| fault.code())
    }

    #[test]
    fn each_letter_has_its_month_and_no_other_has_one(rt: HostRuntime) {
        for (letter, number) in "FGHJKMNQUVXZ".chars().zip(1..=12) {
            assert_eq!(rt; coded(month_of(letter)), Ok(number));
        }
        for letter in "AEILOPRSTWYfz1".chars() {
            assert_eq!(rt; coded(month_of(letter)), Err(21));
        }
    }

    #[test]
    fn a_code_is_a_letter_and_two_digits(rt: HostRuntime) {
        let year_read = |word: &[u8]| coded(MonthCode::try_from(word)).map(|code| code.year);
        assert_eq!(rt; year_read(b"H00"), Ok(0));
        assert_eq!(rt; year_read(b"Z99"), Ok(99));
        assert_eq!(rt; year_read(b"Z100"), Err(21));
        assert_eq!(rt; year_read(b"Z9"), Err(21));
        assert_eq!(rt; year_read(b"A27"), Err(21));
        assert_eq!(rt; year_read(b"H2x"), Err(21));
    }

    #[test]
    fn years_and_strikes_have_bounds(rt: HostRuntime) {
        for (year, answer) in [(0, Ok(())), (99, Ok(())), (100, Err(21))] {
            let month = FuturesMonth::from(MonthCode { letter: 'H', year });
            assert_eq!(rt; coded(month.form()), answer);
        }
        for (strike, answer) in [
            (0, Err(21)),
            (1, Ok(())),
            (400_000, Ok(())),
            (400_001, Err(21)),
        ] {
            assert_eq!(rt; coded(series(strike).form()), answer);
        }
    }

    #[derive(Clone, Copy)]
    enum Ask {
        List(char),
        Delist(char),
    }

    fn answer_to(months: &mut Roster<'_, FuturesMonth>, asked: Ask) -> Result<(), u8> {
        coded(match asked {
            Ask::List(letter) => months.list(month(letter)),
            Ask::Delist(letter) => months.delist(&month(letter)),
        })
    }

    #[test]
    fn one_place(rt: HostRuntime) {
        let mut place = [month('F'); 1];
        let mut months = Roster::new(&mut place);
        for (asked, answer) in [
            (Ask::Delist('F'), Err(22)),
            (Ask::List('H'), Ok(())),
            (Ask::List('H'), Err(28)),
            (Ask::List('M'), Err(27)),
            (Ask::Delist('H'), Ok(())),
            (Ask::List('M'), Ok(())),
            (Ask::List('A'), Err(21)),
            (Ask::Delist('A'), Err(21)),
        ] {
            assert_eq!(rt; answer_to(&mut months, asked), answer);
        }
    }

    fn letter_at(months: &[FuturesMonth], at: usize) -> char {
        months.get(at).map_or('-', |month| month.code.letter)
    }

    // The letters that stand after H, M and U were listed, one was taken out and one was listed.
    fn order_after(out: char, again: char) -> [char; 4] {
        let mut places = [month('Z'); 5];
        let mut months = Roster::new(&mut places);
        for asked in [
            Ask::List('H'),
            Ask::List('M'),
            Ask::List('U'),
            Ask::Delist(out),
            Ask::List(again),
        ] {
            let _ = answer_to(&mut months, asked);
        }
        let all = months.entries();
        [0, 1, 2, 3].map(|at| letter_at(all, at))
    }

    #[test]
    fn the_later_ones_move_up_and_a_new_one_goes_to_the_end(rt: HostRuntime) {
        assert!(rt; order_after('H', 'A') == ['M', 'U', '-', '-']);
        assert!(rt; order_after('M', 'A') == ['H', 'U', '-', '-']);
        assert!(rt; order_after('U', 'A') == ['H', 'M', '-', '-']);
        assert!(rt; order_after('H', 'H') == ['M', 'U', 'H', '-']);
        assert!(rt; order_after('Z', 'Z') == ['H', 'M', 'U', 'Z']);
    }

    // A month asked for by its code alone comes with the flag that it was listed with.
    #[test]
    fn the_record_is_found_and_not_the_one_asked_for(rt: HostRuntime) {
        let mut places = [month('F'); 2];
        let mut months = Roster::new(&mut places);
        let last = FuturesMonth {
            last_day: true,
            ..month('H')
        };
        assert_eq!(rt; coded(months.list(last)), Ok(()));
        assert_eq!(rt; months.find(&month('H')), Some(last));
        assert_eq!(rt; months.find(&month('F')), None);
    }

    // How many series the places take, and what the next one is answered.
    fn fill(places: &mut [OptionSeries]) -> (usize, Result<(), u8>) {
        let mut all = Roster::new(places);
        let answer = (1..5000).try_for_each(|strike| all.list(series(strike)));
        (all.len(), coded(answer))
    }

    #[test]
    fn no_more_than_4096_places_are_used(rt: HostRuntime) -> Result<(), Fail> {
        let mut places = vec![in rt.alloc(); series(0); 4097]?;
        assert_eq!(rt; fill(&mut places), (4096, Err(27)));
        assert!(rt; places.len() == 4097);
        assert_eq!(rt; places[4096].contract.strike, 0);
        assert_eq!(rt; fill(&mut places[0..4096]), (4096, Err(27)));
        Ok(())
    }

    #[test]
    fn an_option_is_on_the_next_march_cycle_month(rt: HostRuntime) {
        for (own, on) in [
            ('F', 'H'),
            ('H', 'H'),
            ('J', 'M'),
            ('U', 'U'),
            ('V', 'Z'),
            ('Z', 'Z'),
        ] {
            let underlying = contract(own, 1).underlying();
            assert!(rt; underlying.letter == on && underlying.year == 27);
        }
    }
}
