// The program over an outside in memory, as a client would hold it.
mod asks;
mod checking;
mod each_disk;
mod each_input;
mod each_output;
mod failing;
mod forms;
mod indirect;
mod outside;
mod runs;
mod worked;
