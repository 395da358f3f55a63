//! Tests of a pilot over an end that gives what was scripted, with a listener that writes down what it is told.

mod frames;
mod notes;
mod pilots;
