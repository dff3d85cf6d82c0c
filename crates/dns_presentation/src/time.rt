//! Moments of signatures as dates (RFC 4034 3.2).

use std::fmt::{self, Display};

fn is_leap(year: u32) -> bool {
    year % 4 == 0 && (year % 100 != 0 || year % 400 == 0)
}

fn days_of_year(year: u32) -> u32 {
    if is_leap(year) { 366 } else { 365 }
}

fn days_of_month(year: u32, month: u32) -> u32 {
    match month {
        2 => if is_leap(year) { 29 } else { 28 },
        4 | 6 | 9 | 11 => 30,
        _ => 31,
    }
}

/// The year that so many days after the first of 1970 lie in, and the days of it before them.
fn year_and_day(days: u32) -> (u32, u32) {
    let mut left = days;
    for year in 1970..2106 {
        let count = days_of_year(year);
        if left < count {
            return (year, left);
        }
        left -= count;
    }
    (2106, left)
}

/// The month that a day of a year lies in, from 1 on, and the days of it before.
fn month_and_day(year: u32, day: u32) -> (u32, u32) {
    let mut left = day;
    for month in 1..12 {
        let count = days_of_month(year, month);
        if left < count {
            return (month, left);
        }
        left -= count;
    }
    (12, left)
}

/// Seconds since 1970, which print as `YYYYMMDDHHmmSS` in UTC.
#[derive(Clone, Copy)]
pub(crate) struct Moment(pub(crate) u32);

impl Display for Moment {
    fn fmt<W: fmt::Write>(&self, f: &mut fmt::Formatter<W>) -> fmt::Result {
        let (year, day_of_year) = year_and_day(self.0 / 86400);
        let (month, before) = month_and_day(year, day_of_year);
        let day = u64::from(before) + 1;
        let hours = self.0 / 3600 % 24;
        let minutes = self.0 / 60 % 60;
        let seconds = self.0 % 60;
        write!(f, "{year:04}{month:02}{day:02}")?;
        write!(f, "{hours:02}{minutes:02}{seconds:02}")
    }
}
